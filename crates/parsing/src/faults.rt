// The faults of a rule that is read whole (`Repeated` and `Detached`), by sets of variables. Contracts: specs/Heads.antt.
ghost use Rattle.std.specs.Prelude.{◌≡◌, ◌||◌, eqb, false};
ghost use Rattle.std.specs.Int.Bits.{bit_or, bit_and};
ghost use Rattle.parsing.specs.Heads.{others, fault_of};

use refusal::Refusal;

// What is kept of a rule's disjuncts: the set of their existential variables, those of them that two disjuncts have, and whether a disjunct
// is detached.
#[derive(Clone, Copy)]
pub struct Disjuncts {
    pub seen: u8,
    pub again: u8,
    pub apart: bool,
}

impl Disjuncts {
    pub fn none() -> Disjuncts
        ensures { (result.seen ≡ 0) × (result.again ≡ 0) × (result.apart ≡ false) }
    {
        Disjuncts {
            seen: 0,
            again: 0,
            apart: false,
        }
    }

    // With one disjunct more, by the set of its variables and that of the body's.
    pub fn with(self, set: u8, body: u8) -> Disjuncts
        ensures { (result.seen ≡ bit_or self.seen (others set body)) × (result.again ≡ bit_or self.again (bit_and self.seen (others set body))) × (result.apart ≡ (self.apart || eqb (bit_and set body) 0)) }
    {
        let new = set & !body;
        Disjuncts {
            seen: self.seen | new,
            again: self.again | self.seen & new,
            apart: self.apart || set & body == 0,
        }
    }

    // The refusal of the rule that has them: `Repeated` before `Detached`.
    pub fn refusal(self) -> Option<Refusal>
        ensures { result ≡ fault_of self.again self.apart }
    {
        if self.again != 0 {
            return Some(Refusal::Repeated);
        }
        if self.apart {
            return Some(Refusal::Detached);
        }
        None
    }
}
