// Why an answer is refused, and where. The contracts cite specs/Numbers.
#![tactic(auto)]

pub mod spare;

ghost use Rattle.std.specs.Prelude.{◌≡◌};
ghost use Rattle.refusal.specs.Numbers.{number_of, Only};

use crate::spare::Spare;

// The refusals, in the order of their numbers. Some numbers are missing: from 15 on they belong to functions that came with later requests
// (18 is of depths, 26 of stores) or are not built yet.
#[derive(Clone, Copy, Debug, PartialEq, Eq)]
pub enum Refusal {
    // a list that the caller lends is too short
    ShortList,
    // the stated length is not the count of the bytes behind it
    Length,
    Version,
    // the count of predicates, or an arity
    Predicates,
    // the count of rules
    Rules,
    // a count of atoms or of disjuncts
    Count,
    // a predicate that is not declared, or a variable over 7
    Symbol,
    // an existential variable stands in two disjuncts
    Repeated,
    // a disjunct has no variable of the body
    Detached,
    // the bytes end too early, or some are left over
    End,
    // a trigger of a blockable rule has too many places
    Places,
    // the test set of such a trigger has too many facts
    TestFacts,
    StageFacts,
    StageTerms,
    // the caller's depth is none
    Depth,
    // too many records for a store, or bytes that are none
    Store,
    // a number that has no name here, as of a request that is not built yet: so every number of a byte is some refusal's
    Other(Spare),
}

impl From<Refusal> for usize {
    ghost from_gives = { λ r n. n ≡ number_of r };

    fn from(refusal: Refusal) -> usize {
        match refusal {
            Refusal::ShortList => 1,
            Refusal::Length => 2,
            Refusal::Version => 3,
            Refusal::Predicates => 4,
            Refusal::Rules => 5,
            Refusal::Count => 6,
            Refusal::Symbol => 7,
            Refusal::Repeated => 8,
            Refusal::Detached => 9,
            Refusal::End => 10,
            Refusal::Places => 11,
            Refusal::TestFacts => 12,
            Refusal::StageFacts => 13,
            Refusal::StageTerms => 14,
            Refusal::Depth => 18,
            Refusal::Store => 26,
            Refusal::Other(spare) => usize::from(spare.number),
        }
    }
}

impl From<u8> for Refusal {
    ghost from_gives = { Only };

    #[tactic(auto, using(crate::proofs::Told::refusal_told))]
    fn from(number: u8) -> Refusal {
        match number {
            1 => Refusal::ShortList,
            2 => Refusal::Length,
            3 => Refusal::Version,
            4 => Refusal::Predicates,
            5 => Refusal::Rules,
            6 => Refusal::Count,
            7 => Refusal::Symbol,
            8 => Refusal::Repeated,
            9 => Refusal::Detached,
            10 => Refusal::End,
            11 => Refusal::Places,
            12 => Refusal::TestFacts,
            13 => Refusal::StageFacts,
            14 => Refusal::StageTerms,
            18 => Refusal::Depth,
            26 => Refusal::Store,
            _ => Refusal::Other(Spare { number }),
        }
    }
}

// A refusal, and the place that it names. The place stands first, as in `parsing::Parsed`, so that both cases of an answer lie alike.
#[derive(Clone, Copy, Debug, PartialEq, Eq)]
pub struct Refused {
    pub place: usize,
    pub refusal: Refusal,
}
