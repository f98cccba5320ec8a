// How far the making of triggers came. The contracts say by Ended of specs/Stage what each ending stands for.
use stage_output::atoms::Made;

// All that was to be made is made; or a blocking test was too large, refusal 12; or the table of terms had no room for an output.
#[derive(Clone, Copy)]
pub enum Ending {
    Done,
    TestTooLarge,
    NoRoom,
}

// What is made, and how it ended.
#[derive(Clone, Copy)]
pub struct Progress {
    pub made: Made,
    pub ending: Ending,
}
