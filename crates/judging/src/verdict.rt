// The answer of the check, by value. specs/Verdict says which verdict of the model each case is.
ghost use Rattle.std.specs.Prelude.{◌≡◌};
ghost use Rattle.judging.specs.Verdict.{refused_by};

use refusal::Refused;

#[derive(Clone, Copy)]
pub enum Verdict {
    // the stage, then the counts of its facts and terms
    Accepted(usize, usize, usize),
    // the stage that would hold a cyclic term, then the counts of facts and terms of the one before it
    Cyclic(usize, usize, usize),
    // the number of the refusal, and its place: any number can be told, also one without a name
    Refused(usize, usize),
}

impl From<Refused> for Verdict {
    ghost from_gives = { λ r v. v ≡ refused_by r };

    fn from(refused: Refused) -> Verdict {
        Verdict::Refused(usize::from(refused.refusal), refused.place)
    }
}
