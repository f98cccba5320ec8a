// The lengths of lists that are lent. The contract cites specs/Lent.
ghost use Rattle.std.specs.Prelude.{◌≡◌, ◌+◌, ◌≤◌};
ghost use Rattle.test_support.specs.Lent.{room};

// How much longer a list may be than it is asked for.
pub const MORE: usize = 57;

// The length of a list by a case's letter: `+` for a longer one, `letter` for one that is one short, any other for what is asked.
#[tactic(auto, unfolding(crate::specs::Lent::room))]
pub fn room(lists: u8, letter: u8, asked: usize) -> usize
    requires { (1 ≤ asked) × (asked ≤ 100000) }
    ensures length { result ≡ room lists letter asked }
    ensures at_most { result ≤ asked + 57 }
{
    if lists == letter {
        return asked - 1;
    }
    if lists == b'+' {
        return asked + MORE;
    }
    asked
}
