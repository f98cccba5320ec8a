// A case of `unpack`: the tables are full of marks.
ghost use Rattle.std.specs.Prelude.{◌≤◌, length};

use crate::lists;
use columns::{FACTS_FRONT, Stored, TERMS_FRONT, unpack};
use refusal::Refused;
use std::io;
use test_support::column::{four, two};
use test_support::lent::{MORE, room};
use test_support::{numbers, say};

// Whether the answer is the one of the case: its counts, or its refusal at place 0.
fn is_expected(line: &[u8], answer: Result<Stored, Refused>) -> bool {
    let refusal = two(line, 4);
    match answer {
        Ok(stored) => refusal == 0
            && four(line, 7) == stored.terms
            && four(line, 12) == stored.facts,
        Err(refused) => refused.place == 0 && refusal == usize::from(refused.refusal),
    }
}

// Whether the tables are as the case's answer leaves them: the files' numbers in front, or all marks.
fn are_right(line: &[u8], terms: &[u8], facts: &[u8], term_list: &[u16], fact_list: &[u16]) -> bool
    requires { (length term_list.now ≤ 100000) × (length fact_list.now ≤ 100000) }
{
    if two(line, 4) != 0 {
        return numbers::is_marked(term_list) && numbers::is_marked(fact_list);
    }
    lists::is_right(terms, TERMS_FRONT, term_list) && lists::is_right(facts, FACTS_FRONT, fact_list)
}

// Whether the answer or a table differs.
fn compared(
    rt: &HostRuntime,
    line: &[u8],
    terms: &[u8],
    facts: &[u8],
    store: &[u8],
    term_list: &mut [u16],
    fact_list: &mut [u16],
) -> io::Result<bool>
    requires { (length term_list.old ≤ 100000) × (length fact_list.old ≤ 100000) }
{
    let answer = unpack(store, &mut *term_list, &mut *fact_list);
    if !is_expected(line, answer) {
        return say::note(rt, line, b"another answer");
    }
    if are_right(line, terms, facts, term_list, fact_list) {
        return Ok(false);
    }
    say::note(rt, line, b"other tables")
}

// Whether `unpack` differs on the bytes of a file, over lists that the case names.
pub fn differs(
    rt: &HostRuntime,
    line: &[u8],
    terms: &[u8],
    facts: &[u8],
    store: &[u8],
) -> io::Result<bool>
    requires { 3 ≤ length line.now }
{
    let lists = line[2];
    let mut term_list = [numbers::MARK; TERMS_FRONT + MORE];
    let mut fact_list = [numbers::MARK; FACTS_FRONT + MORE];
    let t = room(lists, b't', TERMS_FRONT);
    let f = room(lists, b'f', FACTS_FRONT);
    compared(
        rt,
        line,
        terms,
        facts,
        store,
        &mut term_list[0..t],
        &mut fact_list[0..f],
    )
}
