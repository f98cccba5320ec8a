// The text of an answer, byte by byte. The contract cites the model's Text, and specs/Writing and specs/Legible.
#![tactic(auto)]

mod records;
mod words;

ghost use Rattle.model.specs.Text.{text};
ghost use Rattle.judging.specs.Verdict.{meant};
ghost use Rattle.text.specs.Writing.{Room, Writes};
ghost use Rattle.text.specs.Legible.{Legible};

use judging::verdict::Verdict;
use records::{write_header, write_loop_line, write_records, write_refusal};

// Leaves the text of an answer and its tables in the front of `out`, and answers its length.
pub fn write_text(
    verdict: Verdict,
    arities: &[u16],
    terms: &[u16],
    facts: &[u16],
    out: &mut [u8],
) -> usize
    requires { Legible arities.now verdict terms.now facts.now × Room (text arities.now (meant verdict) terms.now facts.now) 0 out.old }
    ensures { Writes (text arities.now (meant verdict) terms.now facts.now) 0 out.old out.new result }
{
    match verdict {
        Verdict::Accepted(stage, f, t) => {
            let end = write_header(b"accepted", stage, f, t, out);
            write_records(arities, terms, facts, f, t, out, end)
        }
        Verdict::Cyclic(stage, f, t) => {
            let end = write_header(b"cyclic", stage, f, t, out);
            let behind_records = write_records(arities, terms, facts, f, t, out, end);
            write_loop_line(terms, t, out, behind_records)
        }
        Verdict::Refused(number, place) => write_refusal(number, place, out),
    }
}
