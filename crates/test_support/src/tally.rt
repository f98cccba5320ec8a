// How many cases were tried, and how many differ. The contracts cite specs/Tally.
ghost use Rattle.std.specs.Prelude.{◌≡◌, ◌+◌};
ghost use Rattle.test_support.specs.Tally.{capped, once};

#[derive(Clone, Copy)]
pub struct Tally {
    pub cases: usize,
    pub differences: usize,
}

impl Tally {
    pub fn new() -> Tally
        ensures { (result.cases ≡ 0) × (result.differences ≡ 0) }
    {
        Tally {
            cases: 0,
            differences: 0,
        }
    }

    // With one case more.
    pub fn with(self, differs: bool) -> Tally
        ensures { (result.cases ≡ capped (self.cases + 1)) × (result.differences ≡ capped (self.differences + once differs)) }
    {
        Tally {
            cases: self.cases.saturating_add(1),
            differences: self.differences.saturating_add(usize::from(differs)),
        }
    }

    pub fn plus(self, other: Tally) -> Tally
        ensures { (result.cases ≡ capped (self.cases + other.cases)) × (result.differences ≡ capped (self.differences + other.differences)) }
    {
        Tally {
            cases: self.cases.saturating_add(other.cases),
            differences: self.differences.saturating_add(other.differences),
        }
    }
}
