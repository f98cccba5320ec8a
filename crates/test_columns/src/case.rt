// A case `K L NN TTTT FFFF TERMS FACTS STORE`: p where it is packed and u where it is unpacked, which lists are lent, the number of a refusal or
// 0, the counts of terms and facts, and the files of the terms' numbers, the facts' and the store's bytes. L is `=` for lists of the lengths
// that are asked for, `+` for longer ones, `t`, `f` or `o` where the terms, the facts or the store's bytes are one short.
ghost use Rattle.std.specs.Prelude.{◌≤◌, length, IfOk};

use crate::lists::FILE_ROOM;
use crate::{packing, unpacking};
use std::io;
use test_support::column::find;
use test_support::{file, say};

// Where the first file's name begins.
const NAMES: usize = 17;

// A file's bytes in the front of a list, and how many; none where it cannot be opened.
fn loaded(rt: &HostRuntime, name: &[u8], list: &mut [u8]) -> io::Result<usize>
    ensures { IfOk result (λ n. n ≤ length list.new) }
{
    let Some(file) = file::open(rt, name)? else {
        return Ok(0);
    };
    file::load(file, list)
}

// Whether a case differs, by the bytes of its files.
fn tried(
    rt: &HostRuntime,
    line: &[u8],
    terms: &[u8],
    facts: &[u8],
    store: &[u8],
) -> io::Result<bool>
    requires { 3 ≤ length line.now }
{
    if line[0] == b'p' {
        return packing::differs(rt, line, terms, facts, store);
    }
    unpacking::differs(rt, line, terms, facts, store)
}

// Whether a case differs, which is then said.
pub fn differs(rt: &HostRuntime, line: &[u8]) -> io::Result<bool> {
    if line.len() < NAMES {
        return say::note(rt, line, b"no case");
    }
    let first = find(line, NAMES, b' ');
    if line.len() <= first {
        return say::note(rt, line, b"no case");
    }
    let second = find(line, first + 1, b' ');
    if line.len() <= second {
        return say::note(rt, line, b"no case");
    }
    let mut terms = [0u8; FILE_ROOM];
    let mut facts = [0u8; FILE_ROOM];
    let mut store = [0u8; FILE_ROOM];
    let t = loaded(rt, &line[NAMES..first], &mut terms[..])?;
    let f = loaded(rt, &line[first + 1..second], &mut facts[..])?;
    let n = loaded(rt, &line[second + 1..], &mut store[..])?;
    tried(rt, line, &terms[..t], &facts[..f], &store[..n])
}
