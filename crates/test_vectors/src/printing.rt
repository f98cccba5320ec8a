// A case `L DDDD TTTT FFFF BOOK TEXT` of `print`: which lists it is lent, the depth, what it leaves of the tables, as `lists` says, the book's
// file, and the file of the text. L is `=` for lists of the lengths that `print` asks for, `+` for longer ones, `t`, `f` or `o` where the terms,
// the facts or the text's bytes are one short: then the answer is refusal 1 at place 0. It is `d` where the number is no depth, and the answer
// refusal 18. Neither touches anything.
ghost use Rattle.std.specs.Prelude.{◌≤◌, length};

use crate::lists;
use report::{FACTS_FRONT, TERMS_FRONT, TEXT_ROOM, print};
use std::io;
use test_support::answer::{Answer, is_other, shown};
use test_support::column::{find, four};
use test_support::lent::{MORE, room};
use test_support::{bytes, file, numbers, say};

// Where the columns of a case begin.
const DEPTH_COLUMN: usize = 2;

const TABLES_COLUMN: usize = 7;

const BOOK_COLUMN: usize = 17;

// One byte more than the longest book has.
const INPUT_LIMIT: usize = 9097;

fn expected(lists: u8, length: usize) -> Answer {
    if lists == b't' || lists == b'f' || lists == b'o' {
        return Answer {
            refusal: 1,
            place: 0,
        };
    }
    if lists == b'd' {
        return Answer {
            refusal: 18,
            place: 0,
        };
    }
    Answer {
        refusal: 0,
        place: length,
    }
}

// Whether the answer, the text or the tables differ, over lists of marks.
fn compared(
    rt: &HostRuntime,
    line: &[u8],
    book: &[u8],
    text: &[u8],
    terms: &mut [u16],
    facts: &mut [u16],
    out: &mut [u8],
) -> io::Result<bool>
    requires { 7 ≤ length line.now }
{
    let transfer = print(
        book,
        four(line, DEPTH_COLUMN),
        &mut *terms,
        &mut *facts,
        &mut *out,
    );
    let found = shown(transfer);
    if is_other(rt, line, expected(line[0], text.len()), found)? {
        return Ok(true);
    }
    if !bytes::is_right(text, found.refusal, out) {
        return say::note(rt, line, b"another text");
    }
    if lists::are_right(&line[TABLES_COLUMN..], terms, facts) {
        return Ok(false);
    }
    say::note(rt, line, b"other tables")
}

// Whether `print` differs on a book, over lists that its case names.
fn tried(rt: &HostRuntime, line: &[u8], book: &[u8], text: &[u8]) -> io::Result<bool>
    requires { 7 ≤ length line.now }
{
    let lists = line[0];
    let mut terms = [numbers::MARK; TERMS_FRONT + MORE];
    let mut facts = [numbers::MARK; FACTS_FRONT + MORE];
    let mut out = [bytes::MARK; TEXT_ROOM + MORE];
    let t = room(lists, b't', TERMS_FRONT);
    let f = room(lists, b'f', FACTS_FRONT);
    let o = room(lists, b'o', TEXT_ROOM);
    compared(
        rt,
        line,
        book,
        text,
        &mut terms[0..t],
        &mut facts[0..f],
        &mut out[0..o],
    )
}

// Whether a case differs, by the front of its book.
pub fn differs(rt: &HostRuntime, line: &[u8]) -> io::Result<bool> {
    if line.len() < BOOK_COLUMN {
        return say::note(rt, line, b"no case");
    }
    let space = find(line, BOOK_COLUMN, b' ');
    if line.len() <= space {
        return say::note(rt, line, b"no case");
    }
    let Some(file) = file::open(rt, &line[BOOK_COLUMN..space])? else {
        return Ok(true);
    };
    let mut book = [0u8; INPUT_LIMIT];
    let n = file::load(file, &mut book[..])?;
    let Some(file) = file::open(rt, &line[space + 1..])? else {
        return Ok(true);
    };
    let mut text = [0u8; TEXT_ROOM + 1];
    let m = file::load(file, &mut text[..])?;
    tried(rt, line, &book[..n], &text[..m])
}
