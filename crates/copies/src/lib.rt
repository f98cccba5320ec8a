// The terms of a trigger copied into a table of their own, each occurrence of a constant apart. The contracts cite specs/Copying and
// specs/Copies of crate rows.
#![tactic(auto)]

ghost use Rattle.std.specs.Prelude.{◌≡◌, map, true, ℕ, ◌<◌, get_or};
ghost use Rattle.rows.specs.Copies.{copy_term, copies};
ghost use Rattle.form_variables.specs.Sets.{has, elements};
ghost use Rattle.tables.specs.Rows.{rows};
ghost use Rattle.tables.specs.Terms.{Ordered};
ghost use Rattle.facts.specs.Room.{TakesTerms, HoldsTerms};
ghost use Rattle.facts.specs.Atoms.{value_of};
ghost use Rattle.copies.specs.Copying.{copied_at, numbered_at, Copied};

// Copies term `i` behind the `n` rows of a table, its arguments first, each occurrence of a constant as a row of its own. Gives how many rows
// there are then.
fn copy(terms: &[u16], count: usize, i: usize, table: &mut [u16], n: usize) -> usize
    requires { Ordered count terms.now × (i < count) × TakesTerms table.old n (copy_term count (rows 10 count terms.now) i (rows 10 n table.old)) }
    ensures { HoldsTerms table.new result (copy_term count (rows 10 count terms.now) i (rows 10 n table.old)) }
{
    let arity = tables::copied_arity(terms, count, i);
    let mut row: [u16; 10] = [0; 10];
    row[0] = tables::function(terms, count, i);
    row[1] = arity;
    let mut m = n;
    for j in 0..usize::from(arity) {
        m = copy(terms, count, tables::argument(terms, count, i, j), table, m);
        row[2 + j] = (m - 1) as u16;
    }
    terms::append_term(table, m, row);
    m + 1
}

// The copies of terms: their numbers by variable, and how many rows there are.
#[derive(Clone, Copy)]
pub struct Renamed {
    pub numbers: [u16; 8],
    pub count: usize,
}

// Copies the term `i` of variable `v`, if the set has the variable.
fn copy_variable(
    terms: &[u16],
    count: usize,
    variables: u8,
    v: u8,
    i: usize,
    numbers: [u16; 8],
    table: &mut [u16],
    n: usize,
) -> Renamed
    requires { Ordered count terms.now × (v < 8) × (has variables v ≡ true → i < count) × TakesTerms table.old n (copied_at (rows 10 count terms.now) count variables v i (rows 10 n table.old)) }
    ensures { HoldsTerms table.new result.count (copied_at (rows 10 count terms.now) count variables v i (rows 10 n table.old)) × (result.numbers ≡ numbered_at variables v numbers result.count) }
{
    if form_variables::contains(variables, v) {
        let m = copy(terms, count, i, table, n);
        let mut next = numbers;
        next[usize::from(v)] = (m - 1) as u16;
        return Renamed {
            numbers: next,
            count: m,
        };
    }
    Renamed { numbers, count: n }
}

// Copies the terms of a trigger into an empty table, variable by variable in rising number.
pub fn copy_terms(
    terms: &[u16],
    count: usize,
    variables: u8,
    assignment: [u16; 8],
    table: &mut [u16],
) -> Renamed
    requires { Ordered count terms.now × ((v : ℕ) → v < 8 → has variables v ≡ true → get_or assignment v 0 < count) × TakesTerms table.old 0 (copies (rows 10 count terms.now) (map (value_of assignment) (elements variables))).terms }
    ensures { Copied (rows 10 count terms.now) variables assignment table.new result.count result.numbers }
{
    let mut numbers: [u16; 8] = [0; 8];
    let mut n = 0;
    for v in 0u8..8 {
        let copied = copy_variable(
            terms,
            count,
            variables,
            v,
            usize::from(assignment[usize::from(v)]),
            numbers,
            table,
            n,
        );
        numbers = copied.numbers;
        n = copied.count;
    }
    Renamed { numbers, count: n }
}
