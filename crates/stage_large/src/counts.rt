// A stage in two tables, by its counts. specs/Stage says which stage of the definitions over rows that is.

// How many terms and facts of the tables are the stage's, how many of these facts stood one stage earlier, and the depth at which the stage is
// left for the next.
#[derive(Clone, Copy)]
pub struct Counts {
    pub terms: usize,
    pub facts: usize,
    pub old: usize,
    pub depth: u8,
}
