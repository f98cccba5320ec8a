// The lines of the output.
ghost use Rattle.std.specs.Prelude.{◌≡◌, true, IfOk};

use crate::answer::Answer;
use crate::tally::Tally;
use std::io;
use std::io::Print;

// A line about a case, which differs: true.
pub fn note(rt: &HostRuntime, line: &[u8], text: &[u8]) -> io::Result<bool>
    ensures { IfOk result (λ differs. differs ≡ true) }
{
    rt.write_all(line)?;
    rt.write_all(b": ")?;
    rt.write_all(text)?;
    rt.write_all(b"\n")?;
    Ok(true)
}

// The line of a case with another answer than the one that came.
pub(crate) fn answer(rt: &HostRuntime, line: &[u8], found: Answer) -> io::Result<()> {
    rt.write_all(line)?;
    println!(rt; ": answered {} {}", found.refusal, found.place)
}

// The line of a group.
pub fn count(rt: &HostRuntime, name: &[u8], tally: Tally) -> io::Result<()> {
    rt.write_all(name)?;
    println!(rt;
        ": {} cases, {} differences",
        tally.cases, tally.differences
    )
}
