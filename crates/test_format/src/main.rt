// Tries `read` and `write` on books: a line for each difference from what documents 01 and 02 ask, one for each group of cases, then
// the count.
//
// A group is a file with a case on each line, as `reading` and `writing` say. What `misstated` says is wrong, and so are the first two
// forms, and each of them must differ. The cases of document 02's vectors are in `requests` and `generated`: all but those whose book has
// a 3 at place 4, which is no version before C-16.
#![tactic(auto)]

mod forms;
mod reading;
mod rooms;
mod writing;

use crate::rooms::FILE_ROOM;
use std::io;
use test_support::tally::Tally;
use test_support::{group, say};

// Whether a case differs, which is then said.
fn differs(rt: &HostRuntime, line: &[u8]) -> io::Result<bool> {
    if line.first() == Some(&b'w') {
        return writing::differs(rt, line);
    }
    reading::differs(rt, line)
}

fn try_group(rt: &HostRuntime, name: &[u8]) -> io::Result<Tally> {
    let mut text = [0u8; FILE_ROOM];
    group::try_group(rt, name, &mut text, differs)
}

// The forms of River and Lake in both versions, and one with a predicate that takes two bytes, number by number.
fn try_forms(rt: &HostRuntime) -> io::Result<Tally> {
    let tally = Tally::new()
        .with(forms::differs(rt, b"river.book", b"river.form")?)
        .with(forms::differs(rt, b"lake.book", b"lake.form")?)
        .with(forms::differs(rt, b"river-2.book", b"river-2.form")?)
        .with(forms::differs(rt, b"lake-2.book", b"lake-2.form")?)
        .with(forms::differs(rt, b"c15-predicate-256.book", b"c15-predicate-256.form")?);
    say::count(rt, b"forms", tally)?;
    Ok(tally)
}

fn main(rt: HostRuntime) -> io::Result<()> {
    try_group(&rt, b"misstated")?;
    forms::differs(&rt, b"river.book", b"lake.form")?;
    forms::differs(&rt, b"river.book", b"river-2.form")?;
    let tally = try_group(&rt, b"refusals")?
        .plus(try_group(&rt, b"damaged")?)
        .plus(try_group(&rt, b"random")?)
        .plus(try_group(&rt, b"papers")?)
        .plus(try_group(&rt, b"longest")?)
        .plus(try_group(&rt, b"lengths")?)
        .plus(try_group(&rt, b"requests")?)
        .plus(try_group(&rt, b"generated")?)
        .plus(try_forms(&rt)?)
        .plus(try_group(&rt, b"writing")?)
        .plus(try_group(&rt, b"versions")?);
    say::count(&rt, b"all", tally)
}
