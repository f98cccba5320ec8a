// A case of `pack`: the tables have the files' numbers in their front parts, the output is full of marks.
ghost use Rattle.std.specs.Prelude.{◌≤◌, length};

use crate::lists;
use columns::{FACTS_FRONT, STORE_ROOM, TERMS_FRONT, pack};
use std::io;
use test_support::answer::{Answer, is_other, shown};
use test_support::column::{four, two};
use test_support::lent::{MORE, room};
use test_support::{bytes, say};

// What a case expects: the store's length, or a refusal at place 0.
fn expected(line: &[u8], length: usize) -> Answer {
    let refusal = two(line, 4);
    if refusal == 0 {
        return Answer {
            refusal,
            place: length,
        };
    }
    Answer { refusal, place: 0 }
}

// Whether the answer or the output differs.
fn compared(
    rt: &HostRuntime,
    line: &[u8],
    terms: &[u16],
    facts: &[u16],
    store: &[u8],
    out: &mut [u8],
) -> io::Result<bool> {
    let transfer = pack(four(line, 7), four(line, 12), terms, facts, &mut *out);
    let found = shown(transfer);
    if is_other(rt, line, expected(line, store.len()), found)? {
        return Ok(true);
    }
    if bytes::is_right(store, found.refusal, out) {
        return Ok(false);
    }
    say::note(rt, line, b"another store")
}

// Whether `pack` differs on the numbers of two files, over lists that the case names.
pub fn differs(
    rt: &HostRuntime,
    line: &[u8],
    terms: &[u8],
    facts: &[u8],
    store: &[u8],
) -> io::Result<bool>
    requires { 3 ≤ length line.now }
{
    let lists = line[2];
    let mut term_list = [0u16; TERMS_FRONT + MORE];
    let mut fact_list = [0u16; FACTS_FRONT + MORE];
    let mut out = [bytes::MARK; STORE_ROOM + MORE];
    lists::put(terms, TERMS_FRONT, &mut term_list[..]);
    lists::put(facts, FACTS_FRONT, &mut fact_list[..]);
    let t = room(lists, b't', TERMS_FRONT);
    let f = room(lists, b'f', FACTS_FRONT);
    let o = room(lists, b'o', STORE_ROOM);
    compared(
        rt,
        line,
        &term_list[0..t],
        &fact_list[0..f],
        store,
        &mut out[0..o],
    )
}
