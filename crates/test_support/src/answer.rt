// What `read`, `write` and `print` answer, by the two numbers of crate crossing. The contracts cite its specs/Numbers, and specs/Columns.
ghost use Rattle.std.specs.Prelude.{◌≡◌, not, ◌&&◌, ◌==◌, IfOk};
ghost use Rattle.reader.specs.Transfer.{transfer_of};
ghost use Rattle.crossing.specs.Numbers.{transfer_number, transfer_value};
ghost use Rattle.test_support.specs.Columns.{two, four};

use crate::{column, say};
use reader::Transfer;
use std::io;

// 0 and how many bytes were read or written, or a refusal's number and its place: two columns of a case, which may state a number that no
// refusal has.
#[derive(Clone, Copy, PartialEq, Eq)]
pub struct Answer {
    pub refusal: usize,
    pub place: usize,
}

pub fn shown(t: Transfer) -> Answer
    ensures { (result.refusal ≡ transfer_number (transfer_of t)) × (result.place ≡ transfer_value (transfer_of t)) }
{
    let mut place = 0;
    let refusal = crossing::transfer(t, &mut place);
    Answer { refusal, place }
}

// What a case expects, from its third column on: `NN PPPP`.
pub fn expected(line: &[u8]) -> Answer
    ensures { (result.refusal ≡ two line.now 2) × (result.place ≡ four line.now 5) }
{
    Answer {
        refusal: column::two(line, 2),
        place: column::four(line, 5),
    }
}

// Whether a case expects another answer, which is then said.
pub fn is_other(rt: &HostRuntime, line: &[u8], expected: Answer, found: Answer) -> io::Result<bool>
    ensures { IfOk result (λ other. other ≡ not (found.refusal == expected.refusal && found.place == expected.place)) }
{
    if found == expected {
        return Ok(false);
    }
    say::answer(rt, line, found)?;
    Ok(true)
}
