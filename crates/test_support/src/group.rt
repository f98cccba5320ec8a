// A group of cases: a file with a case on each line.
ghost use Rattle.std.specs.Prelude.{◌≡◌};

use crate::column::line_end;
use crate::tally::Tally;
use crate::{file, say};
use std::io;

// Tries the case of each line, and counts those that differ. It goes from line end to line end.
fn try_cases<F: Fn(&HostRuntime, &[u8]) -> io::Result<bool>>(
    rt: &HostRuntime,
    text: &[u8],
    differs: F,
) -> io::Result<Tally>
    requires { F.IsAlwaysCallable differs }
{
    let mut tally = Tally::new();
    let mut at = 0;
    while at < text.len() {
        let end = line_end(text, at);
        tally = tally.with(differs(rt, &text[at..end])?);
        at = end + 1;
    }
    Ok(tally)
}

// Tries the cases of a file, as far as `text` has room for them; a file that cannot be opened is a difference.
pub fn try_group<F: Fn(&HostRuntime, &[u8]) -> io::Result<bool>>(
    rt: &HostRuntime,
    name: &[u8],
    text: &mut [u8],
    differs: F,
) -> io::Result<Tally>
    requires { F.IsAlwaysCallable differs }
{
    let Some(file) = file::open(rt, name)? else {
        return Ok(Tally::new().with(true));
    };
    let n = file::load(file, &mut *text)?;
    let tally = try_cases(rt, &text[..n], differs)?;
    say::count(rt, name, tally)?;
    Ok(tally)
}
