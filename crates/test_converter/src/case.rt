// A case `K NN PPPP NAME BOOK BYTES`: u where it is converted to version 2 and d where it is converted to version 1; a refusal's number, or 0
// where it is done; the refusal's place, or how many bytes are written; its name in document 02's vectors; the book and what is written, both
// as `hex` says, with `-` for no bytes. Each is tried over an output that is exactly as long as is asked for, a longer one, and one that is a
// byte short, which gives refusal 1 at place 0.
ghost use Rattle.std.specs.Prelude.{◌≤◌, length};

use crate::converting::{Case, differs as differs_by};
use crate::hex;
use converter::{downgrade, upgrade};
use std::io;
use test_support::answer::expected;
use test_support::column::find;
use test_support::say;

// Where the name begins.
const NAME: usize = 10;

// Whether a case differs, by what its columns spell; `front` is the line without them.
fn tried(rt: &HostRuntime, line: &[u8], front: &[u8], book: &[u8], bytes: &[u8]) -> io::Result<bool>
    requires { 1 ≤ length line.now }
{
    let case = Case {
        line: front,
        answer: expected(line),
        book,
        written: bytes,
    };
    if line[0] == b'u' {
        return differs_by(rt, upgrade, downgrade, case);
    }
    differs_by(rt, downgrade, upgrade, case)
}

// Whether a case differs, which is then said.
pub fn differs(rt: &HostRuntime, line: &[u8]) -> io::Result<bool> {
    if line.len() < NAME {
        return say::note(rt, line, b"no case");
    }
    let first = find(line, NAME, b' ');
    if line.len() <= first {
        return say::note(rt, line, b"no case");
    }
    let second = find(line, first + 1, b' ');
    if line.len() <= second {
        return say::note(rt, line, b"no case");
    }
    let mut book = [0u8; hex::ROOM];
    let mut bytes = [0u8; hex::ROOM];
    let n = hex::load(&line[first + 1..second], &mut book[..]);
    let m = hex::load(&line[second + 1..], &mut bytes[..]);
    tried(rt, line, &line[0..first], &book[..n], &bytes[..m])
}
