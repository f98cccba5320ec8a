// The program: the front of standard input, and the text of the check's answer on it to standard output. The contract cites model's Text.
#![tactic(auto)]

ghost use Rattle.std.specs.Prelude.{◌≡◌, ◌≤◌, length, take, IfOk};
ghost use Rattle.model.specs.Limits.{input_limit};
ghost use Rattle.model.specs.Text.{printed};
ghost use Rattle.report.specs.Printing.{text_room};

use report::{FACTS_FRONT, TERMS_FRONT, TEXT_ROOM};
use std::io;
use std::io::{Print, Read};

// One byte more than the longest rule set has (model's `input_limit`).
const INPUT_LIMIT: usize = 9097;

// The program's depth (model's `program_depth`).
const DEPTH: usize = 1;

// The text for an input, in the front of `out`, and how many bytes it has.
fn text(input: &[u8], out: &mut [u8]) -> usize
    requires { (length input.now ≤ input_limit) × (text_room ≤ length out.old) }
    ensures { (result ≡ length (printed input.now)) × (take result out.new ≡ printed input.now) }
{
    let mut terms = [0u16; TERMS_FRONT];
    let mut facts = [0u16; FACTS_FRONT];
    // never refused: no list is short, and 1 is a depth
    report::print(input, DEPTH, &mut terms, &mut facts, out).unwrap_or(0)
}

// Reads the front of standard input, as far as the list has room, and answers how many bytes.
fn front(rt: &HostRuntime, bytes: &mut [u8]) -> io::Result<usize>
    ensures { IfOk result (λ n. n ≤ length bytes.new) }
{
    let mut input = rt.reader();
    let mut n = 0;
    while n < bytes.len() {
        let more = input.read(&mut bytes[n..])?;
        if more == 0 {
            break;
        }
        n += more;
    }
    Ok(n)
}

fn main(rt: HostRuntime) -> io::Result<()> {
    let mut bytes = [0u8; INPUT_LIMIT];
    let n = front(&rt, &mut bytes)?;
    let mut out = [0u8; TEXT_ROOM];
    let count = text(&bytes[..n], &mut out);
    rt.write_all(&out[..count])
}
