// A case `r NN PPPP FFFF BOOK` of `read`: a refusal's number, or 0 where the book is read; the refusal's place, or how many bytes are read;
// how many numbers the lent form has; the book's file. A book that is read is written back.
use crate::forms;
use crate::rooms::{INPUT_LIMIT, LENT_LIMIT};
use reader::read;
use std::io;
use test_support::answer::{expected, is_other, shown};
use test_support::column::four;
use test_support::{bytes, file, numbers, say};
use writer::write;

// Room for the bytes of every book, and a few marks beyond.
const WRITTEN_ROOM: usize = INPUT_LIMIT + 4;

// Whether a form is written as these bytes, and nothing beyond them.
fn is_written_back(form: &[u16], book: &[u8]) -> bool {
    let mut list = [bytes::MARK; WRITTEN_ROOM];
    write(form, &mut list[..]) == Ok(book.len()) && bytes::is_right(book, 0, &list[..])
}

// Whether the answer, the form of marks or what is written back differs.
fn compared(rt: &HostRuntime, line: &[u8], book: &[u8], form: &mut [u16]) -> io::Result<bool> {
    let transfer = read(book, form);
    let found = shown(transfer);
    if is_other(rt, line, expected(line), found)? {
        return Ok(true);
    }
    if !forms::is_right(book, found.refusal, form) {
        return say::note(rt, line, b"another form");
    }
    if found.refusal != 0 {
        return Ok(false);
    }
    if is_written_back(form, book) {
        return Ok(false);
    }
    say::note(rt, line, b"not written back")
}

// Whether a case differs, by the front of its book.
pub fn differs(rt: &HostRuntime, line: &[u8]) -> io::Result<bool> {
    if line.len() < 15 {
        return say::note(rt, line, b"no case");
    }
    let Some(file) = file::open(rt, &line[15..])? else {
        return Ok(true);
    };
    let mut book = [0u8; INPUT_LIMIT];
    let n = file::load(file, &mut book[..])?;
    let mut form = [numbers::MARK; LENT_LIMIT];
    let places = four(line, 10);
    compared(rt, line, &book[..n], &mut form[0..places])
}
