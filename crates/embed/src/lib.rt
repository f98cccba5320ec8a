// The functions of the static library (bindings/c/rulfjen.h): numbers and lists cross, and nothing else. The contracts equate all that a
// call returns and leaves behind with the definitions, by the numbers of specs/Numbers.
#![tactic(auto)]

ghost use Rattle.std.specs.Prelude.{◌≡◌, replicate};
ghost use Rattle.model.specs.Form.{reading, writing};
ghost use Rattle.model.specs.Limits.{terms_front, facts_front};
ghost use Rattle.model.specs.Tables.{checked};
ghost use Rattle.report.specs.Printing.{printing};
ghost use Rattle.judging.specs.Verdict.{meant};
ghost use Rattle.embed.specs.Numbers.{of_checked, of_reading, of_writing, of_printing, verdict_number, verdict_values};

use crossing::transfer;
use judging::verdict::Verdict;
use report::{FACTS_FRONT, TERMS_FRONT};

// The number that is returned for a verdict, and the three that are left in `answer`.
fn judgement(verdict: Verdict, answer: &mut [usize; 3]) -> usize
    ensures { (result ≡ verdict_number (meant verdict)) × (answer.new ≡ verdict_values (meant verdict)) }
{
    match verdict {
        Verdict::Accepted(stage, f, t) => {
            *answer = [stage, f, t];
            0
        }
        Verdict::Cyclic(stage, f, t) => {
            *answer = [stage, f, t];
            1
        }
        Verdict::Refused(number, place) => {
            *answer = [number, place, 0];
            2
        }
    }
}

// Checks a rule set at a depth, and leaves the last stage in the caller's tables.
#[unsafe(no_mangle)]
pub extern "C" fn rulfjen_check(
    book: &[u8],
    depth: usize,
    terms: &mut [u16],
    facts: &mut [u16],
    answer: &mut [usize; 3],
) -> usize
    ensures { of_checked (checked depth book.now terms.old facts.old) ≡ record { number = result; answer = answer.new; terms = terms.new; facts = facts.new } }
{
    judgement(dmfa::check(book, depth, terms, facts), answer)
}

// Reads a rule set into a form.
#[unsafe(no_mangle)]
pub extern "C" fn rulfjen_read(book: &[u8], form: &mut [u16], value: &mut usize) -> usize
    ensures { of_reading (reading book.now form.old) ≡ record { number = result; value = value.new; list = form.new } }
{
    transfer(reader::read(book, form), value)
}

// Writes the bytes of a form's rule set.
#[unsafe(no_mangle)]
pub extern "C" fn rulfjen_write(form: &[u16], book: &mut [u8], value: &mut usize) -> usize
    ensures { of_writing (writing form.now book.old) ≡ record { number = result; value = value.new; list = book.new } }
{
    transfer(writer::write(form, book), value)
}

// Writes the text of the check's answer at a depth. The check's tables are local.
#[unsafe(no_mangle)]
pub extern "C" fn rulfjen_print(
    book: &[u8],
    depth: usize,
    text: &mut [u8],
    value: &mut usize,
) -> usize
    ensures { of_printing (printing depth book.now (replicate terms_front 0) (replicate facts_front 0) text.old) ≡ record { number = result; value = value.new; list = text.new } }
{
    let mut terms = [0u16; TERMS_FRONT];
    let mut facts = [0u16; FACTS_FRONT];
    transfer(
        report::print(book, depth, &mut terms, &mut facts, text),
        value,
    )
}
