// The lines of a text: its first line, and those of the terms, the facts and the cyclic term. Every function writes into `out` from a place on,
// or at its front, and answers the place behind what it wrote. The contracts cite specs/Writing, specs/Legible and specs/Lines.
ghost use Rattle.std.specs.Prelude.{[], ◌∷◌, ◌++◌, suc};
ghost use Rattle.model.specs.Text.{line, refused_word, term_word, fact_word, loop_word, term_numbers, fact_numbers, records};
ghost use Rattle.text.specs.Writing.{Room, Writes};
ghost use Rattle.text.specs.Lines.{term_lines, fact_lines};
ghost use Rattle.text.specs.Legible.{LegibleTerms, LegibleFacts};
ghost use Rattle.laws_tables.specs.Lines.{spaced};

use crate::words::{write_newline, write_number, write_numbers, write_word};

// The numbers of a row of the table of terms, and of one of facts.
const TERM_WIDTH: usize = 10;

const FACT_WIDTH: usize = 5;

// The numbers of a record and the newline behind them.
fn write_record(head: u16, arguments: &[u16], out: &mut [u8], at: usize) -> usize
    requires { Room (spaced (head ∷ arguments.now) ++ (10 ∷ [])) at out.old }
    ensures { Writes (spaced (head ∷ arguments.now) ++ (10 ∷ [])) at out.old out.new result }
{
    let behind_head = write_number(usize::from(head), out, at);
    let behind_arguments = write_numbers(arguments, out, behind_head);
    write_newline(out, behind_arguments)
}

// The Skolem function and the arguments of term `i`, and a newline.
fn write_term(terms: &[u16], i: usize, out: &mut [u8], at: usize) -> usize
    requires { LegibleTerms terms.now (suc i) × Room (spaced (term_numbers terms.now i) ++ (10 ∷ [])) at out.old }
    ensures { Writes (spaced (term_numbers terms.now i) ++ (10 ∷ [])) at out.old out.new result }
{
    let row = i * TERM_WIDTH;
    let first = row + 2;
    let end = first + usize::from(terms[row + 1]);
    write_record(terms[row], &terms[first..end], out, at)
}

fn write_term_line(terms: &[u16], i: usize, out: &mut [u8], at: usize) -> usize
    requires { LegibleTerms terms.now (suc i) × Room (line term_word (i ∷ term_numbers terms.now i)) at out.old }
    ensures { Writes (line term_word (i ∷ term_numbers terms.now i)) at out.old out.new result }
{
    let behind_word = write_word(b"term", out, at);
    let behind_number = write_number(i, out, behind_word);
    write_term(terms, i, out, behind_number)
}

// The lines of the first `count` terms.
fn write_term_lines(terms: &[u16], count: usize, out: &mut [u8], at: usize) -> usize
    requires { LegibleTerms terms.now count × Room (term_lines terms.now count) at out.old }
    ensures { Writes (term_lines terms.now count) at out.old out.new result }
{
    let mut end = at;
    for i in 0..count {
        end = write_term_line(terms, i, out, end);
    }
    end
}

fn write_fact_line(arities: &[u16], facts: &[u16], i: usize, out: &mut [u8], at: usize) -> usize
    requires { LegibleFacts arities.now facts.now (suc i) × Room (line fact_word (fact_numbers arities.now facts.now i)) at out.old }
    ensures { Writes (line fact_word (fact_numbers arities.now facts.now i)) at out.old out.new result }
{
    let behind_word = write_word(b"fact", out, at);
    let row = i * FACT_WIDTH;
    let predicate = facts[row];
    let first = row + 1;
    let end = first + usize::from(arities[usize::from(predicate)]);
    write_record(predicate, &facts[first..end], out, behind_word)
}

// The lines of the first `count` facts.
fn write_fact_lines(
    arities: &[u16],
    facts: &[u16],
    count: usize,
    out: &mut [u8],
    at: usize,
) -> usize
    requires { LegibleFacts arities.now facts.now count × Room (fact_lines arities.now facts.now count) at out.old }
    ensures { Writes (fact_lines arities.now facts.now count) at out.old out.new result }
{
    let mut end = at;
    for i in 0..count {
        end = write_fact_line(arities, facts, i, out, end);
    }
    end
}

// The lines of the terms, then those of the facts.
pub fn write_records(
    arities: &[u16],
    terms: &[u16],
    facts: &[u16],
    f: usize,
    t: usize,
    out: &mut [u8],
    at: usize,
) -> usize
    requires { LegibleTerms terms.now t × LegibleFacts arities.now facts.now f × Room (records arities.now terms.now facts.now f t) at out.old }
    ensures { Writes (records arities.now terms.now facts.now f t) at out.old out.new result }
{
    let behind_terms = write_term_lines(terms, t, out, at);
    write_fact_lines(arities, facts, f, out, behind_terms)
}

// The line of the cyclic term, which stands behind the `t` terms.
pub fn write_loop_line(terms: &[u16], t: usize, out: &mut [u8], at: usize) -> usize
    requires { LegibleTerms terms.now (suc t) × Room (line loop_word (term_numbers terms.now t)) at out.old }
    ensures { Writes (line loop_word (term_numbers terms.now t)) at out.old out.new result }
{
    let behind_word = write_word(b"loop", out, at);
    write_term(terms, t, out, behind_word)
}

// A word and two numbers, at the front of `out`.
fn write_start(word: &[u8], a: usize, b: usize, out: &mut [u8]) -> usize
    requires { Room (word.now ++ spaced (a ∷ b ∷ [])) 0 out.old }
    ensures { Writes (word.now ++ spaced (a ∷ b ∷ [])) 0 out.old out.new result }
{
    let behind_word = write_word(word, out, 0);
    let behind_a = write_number(a, out, behind_word);
    write_number(b, out, behind_a)
}

// The first line of an answer that leaves records: the stage, and the counts of facts and terms.
pub fn write_header(word: &[u8], stage: usize, f: usize, t: usize, out: &mut [u8]) -> usize
    requires { Room (line word.now (stage ∷ f ∷ t ∷ [])) 0 out.old }
    ensures { Writes (line word.now (stage ∷ f ∷ t ∷ [])) 0 out.old out.new result }
{
    let behind_facts = write_start(word, stage, f, out);
    let end = write_number(t, out, behind_facts);
    write_newline(out, end)
}

// The line of a refusal: its number and its place.
pub fn write_refusal(number: usize, place: usize, out: &mut [u8]) -> usize
    requires { Room (line refused_word (number ∷ place ∷ [])) 0 out.old }
    ensures { Writes (line refused_word (number ∷ place ∷ [])) 0 out.old out.new result }
{
    let end = write_start(b"refused", number, place, out);
    write_newline(out, end)
}
