// What `read` leaves of a form that was full of marks.
use crate::rooms::FILE_ROOM;
use form::layout::LENGTH;
use reader::read;
use std::io;
use test_support::column::{four, line_end};
use test_support::numbers::{MARK, is_marked};
use test_support::{file, say};

// Whether a form of marks is as a book that was read leaves it: its front what a form of zeros becomes, and marks beyond.
fn is_filled(bytes: &[u8], form: &[u16]) -> bool {
    let mut other = [0u16; LENGTH];
    let _ = read(bytes, &mut other[..]);
    form.starts_with(&other) && is_marked(&form[LENGTH..])
}

// Whether a form of marks is as the answer to these bytes leaves it: a refusal leaves the marks.
pub fn is_right(bytes: &[u8], refusal: usize, form: &[u16]) -> bool {
    if refusal == 0 {
        return is_filled(bytes, form);
    }
    is_marked(form)
}

// Puts the number of a line `AAAA VVVV` at its place.
pub fn put(line: &[u8], form: &mut [u16]) {
    let place = four(line, 0);
    if place < form.len() {
        form[place] = four(line, 5) as u16;
    }
}

fn put_lines(text: &[u8], form: &mut [u16]) {
    let mut at = 0;
    while at < text.len() {
        let end = line_end(text, at);
        put(&text[at..end], form);
        at = end + 1;
    }
}

// Puts the numbers of a file at their places.
fn put_file(rt: &HostRuntime, path: &[u8], form: &mut [u16]) -> io::Result<()> {
    let Some(file) = file::open(rt, path)? else {
        return Ok(());
    };
    let mut text = [0u8; FILE_ROOM];
    let n = file::load(file, &mut text[..])?;
    put_lines(&text[..n], form);
    Ok(())
}

// Reads a book into a form.
fn read_file(rt: &HostRuntime, path: &[u8], form: &mut [u16]) -> io::Result<()> {
    let Some(file) = file::open(rt, path)? else {
        return Ok(());
    };
    let mut bytes = [0u8; FILE_ROOM];
    let n = file::load(file, &mut bytes[..])?;
    let _ = read(&bytes[..n], form);
    Ok(())
}

// Whether the form of a book has another number than the lines of a file say, or another than 0 elsewhere.
pub fn differs(rt: &HostRuntime, book: &[u8], numbers: &[u8]) -> io::Result<bool> {
    let mut expected = [0u16; LENGTH];
    put_file(rt, numbers, &mut expected[..])?;
    let mut found = [MARK; LENGTH];
    read_file(rt, book, &mut found[..])?;
    if found == expected {
        return Ok(false);
    }
    say::note(rt, book, b"another form")
}
