// Writes the texts of an accepted answer, a cyclic one and refusals, over small tables.
#![tactic(auto)]

ghost use Rattle.std.specs.Prelude.{◌≤◌, length};
ghost use Rattle.model.specs.Text.{text};
ghost use Rattle.judging.specs.Verdict.{meant};
ghost use Rattle.text.specs.Legible.{Legible};

use judging::verdict::Verdict;
use std::io;
use std::io::Print;

// Numbers of four and five digits, for a table and for an answer.
const FOUR_DIGITS: u16 = 9999;

const SKOLEM_LIMIT: u16 = 2048;

const LARGEST: u16 = 65535;

const STAGE: usize = 1000;

const INPUT_LIMIT: usize = 9097;

fn show(
    rt: &HostRuntime,
    verdict: Verdict,
    arities: &[u16],
    terms: &[u16],
    facts: &[u16],
) -> io::Result<()>
    requires { Legible arities.now verdict terms.now facts.now × (length (text arities.now (meant verdict) terms.now facts.now) ≤ 256) }
{
    let mut out = [0u8; 256];
    let n = text::write_text(verdict, arities, terms, facts, &mut out);
    rt.write_all(&out[..n])
}

// River of document 01.
fn river(rt: &HostRuntime) -> io::Result<()> {
    let arities = [1, 2, 1];
    let terms = [0, 0, 0, 0, 0, 0, 0, 0, 0, 0, 1, 1, 0, 0, 0, 0, 0, 0, 0, 0];
    let facts = [
        0, 0, 0, 0, 0, 1, 0, 0, 0, 0, 2, 0, 0, 0, 0, 1, 0, 1, 0, 0, 2, 1, 0, 0, 0,
    ];
    show(rt, Verdict::Accepted(2, 5, 2), &arities, &terms, &facts)
}

// A cyclic answer with the longest records, and numbers of every length.
fn widest(rt: &HostRuntime) -> io::Result<()> {
    let arities = [4, 1];
    let terms = [
        0,
        0,
        0,
        0,
        0,
        0,
        0,
        0,
        0,
        0,
        SKOLEM_LIMIT,
        8,
        0,
        9,
        10,
        99,
        100,
        511,
        FOUR_DIGITS,
        LARGEST,
    ];
    let facts = [0, 0, 9, 10, LARGEST, 1, 511, 0, 0, 0];
    show(rt, Verdict::Cyclic(STAGE, 2, 1), &arities, &terms, &facts)
}

fn refusals(rt: &HostRuntime) -> io::Result<()> {
    let none = [0];
    show(rt, Verdict::Refused(1, 0), &none, &none, &none)?;
    show(rt, Verdict::Refused(10, INPUT_LIMIT), &none, &none, &none)?;
    show(rt, Verdict::Refused(14, usize::MAX), &none, &none, &none)
}

fn main(rt: HostRuntime) -> io::Result<()> {
    river(&rt)?;
    widest(&rt)?;
    refusals(&rt)
}
