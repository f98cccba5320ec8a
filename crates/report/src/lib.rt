// `print`: the check and the text of its answer, for bytes of a rule set. The contracts cite specs/Printing.
#![tactic(auto)]

ghost use Rattle.std.specs.Prelude.{◌≤◌, length};
ghost use Rattle.model.specs.Text.{text_of};
ghost use Rattle.judging.specs.Verdict.{meant};
ghost use Rattle.text.specs.Writing.{Writes};
ghost use Rattle.report.specs.Printing.{Answer, text_room, Prints};

use form::layout::{ARITIES, LENGTH, VERSION};
use judging::verdict::Verdict;
use reader::Transfer;
use refusal::{Refusal, Refused};

// The front parts of the caller's tables, and room for every text (model's `Limits`, specs/Printing).
pub const TERMS_FRONT: usize = 5130;

pub const FACTS_FRONT: usize = 10240;

pub const TEXT_ROOM: usize = 76863;

// The text of the check's answer on these bytes. The arities stand in the form, whose places are 0 where the bytes are refused.
fn write_answer(
    bytes: &[u8],
    verdict: Verdict,
    terms: &[u16],
    facts: &[u16],
    out: &mut [u8],
) -> usize
    requires { Answer bytes.now verdict terms.now facts.now × (text_room ≤ length out.old) }
    ensures { Writes (text_of bytes.now (record { verdict = meant verdict; terms = terms.now; facts = facts.now })) 0 out.old out.new result }
{
    let mut form = [0u16; LENGTH];
    let _ = reader::read(bytes, &mut form);
    text::write_text(verdict, &form[ARITIES..VERSION], terms, facts, out)
}

// Runs the check at a depth, and leaves the text of its answer in the front of `out`: answers how many bytes, or refusal 1 for a list too short,
// or 18 for a number that is no depth.
pub fn print(
    bytes: &[u8],
    depth: usize,
    terms: &mut [u16],
    facts: &mut [u16],
    out: &mut [u8],
) -> Transfer
    ensures { Prints depth bytes.now terms.old facts.old out.old result terms.new facts.new out.new }
{
    if terms.len() < TERMS_FRONT || facts.len() < FACTS_FRONT || out.len() < TEXT_ROOM {
        return Err(Refused {
            refusal: Refusal::ShortList,
            place: 0,
        });
    }
    if !dmfa::is_depth(depth) {
        return Err(Refused {
            refusal: Refusal::Depth,
            place: 0,
        });
    }
    let verdict = dmfa::check(bytes, depth, terms, facts);
    Ok(write_answer(bytes, verdict, terms, facts, out))
}
