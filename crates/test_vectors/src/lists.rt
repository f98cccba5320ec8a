// What `print` leaves of tables full of marks. Columns `TTTT FFFF` of a case: how many rows of terms and of facts there are, with zeros behind
// them in the front parts; `---- ----` where nothing was touched.
use report::{FACTS_FRONT, TERMS_FRONT};
use test_support::column::four;
use test_support::numbers::{is_full, is_marked};

// The numbers of a row.
const TERM_WIDTH: usize = 10;

const FACT_WIDTH: usize = 5;

// Whether a table has zeros from a place on in its front part, and marks beyond.
fn is_ended(table: &[u16], from: usize, front: usize) -> bool {
    front <= table.len()
        && from <= front
        && is_full(&table[from..front], 0)
        && is_marked(&table[front..])
}

// Whether the tables are as a case says, by its columns.
pub fn are_right(columns: &[u8], terms: &[u16], facts: &[u16]) -> bool {
    if columns.first() == Some(&b'-') {
        return is_marked(terms) && is_marked(facts);
    }
    is_ended(terms, four(columns, 0) * TERM_WIDTH, TERMS_FRONT)
        && is_ended(facts, four(columns, 5) * FACT_WIDTH, FACTS_FRONT)
}
