// A case `w NN PPPP BBBB FFFF AAAA VVVV BOOK` of `write`: a refusal's number, or 0 where the form is written; the refusal's place, or how
// many bytes are written; how many bytes the lent list has, and how many numbers the form; the form is a book's with the number VVVV at the
// place AAAA. A form that is written is one whose bytes are the book's still.
use crate::forms::put;
use crate::rooms::{INPUT_LIMIT, LENT_LIMIT};
use reader::read;
use std::io;
use test_support::answer::{expected, is_other, shown};
use test_support::column::four;
use test_support::{bytes, file, numbers, say};
use writer::write;

// Whether the answer or the list of marks differs.
fn compared(
    rt: &HostRuntime,
    line: &[u8],
    form: &[u16],
    book: &[u8],
    list: &mut [u8],
) -> io::Result<bool> {
    let transfer = write(form, list);
    let found = shown(transfer);
    if is_other(rt, line, expected(line), found)? {
        return Ok(true);
    }
    if bytes::is_right(book, found.refusal, list) {
        return Ok(false);
    }
    say::note(rt, line, b"other bytes")
}

pub fn differs(rt: &HostRuntime, line: &[u8]) -> io::Result<bool> {
    if line.len() < 30 {
        return say::note(rt, line, b"no case");
    }
    let Some(file) = file::open(rt, &line[30..])? else {
        return Ok(true);
    };
    let mut book = [0u8; INPUT_LIMIT];
    let n = file::load(file, &mut book[..])?;
    let mut form = [numbers::MARK; LENT_LIMIT];
    let _ = read(&book[..n], &mut form[..]);
    put(&line[20..], &mut form[..]);
    let mut list = [bytes::MARK; LENT_LIMIT];
    let room = four(line, 10);
    let places = four(line, 15);
    compared(rt, line, &form[0..places], &book[..n], &mut list[0..room])
}
