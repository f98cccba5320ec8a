// Tries `report`'s `print` on books: a line for each difference from what is expected, one for each group of cases, then the count.
//
// A group is a file with a case on each line, as `printing` says. What `misstated` says is wrong, and each of its cases must differ.
// `version-2` has the cases of document 02's vectors whose book has a 2 at place 4, and books of the other groups in that version. Those whose
// book has a 3 there are none before C-16.
#![tactic(auto)]

mod lists;
mod printing;

use std::io;
use test_support::tally::Tally;
use test_support::{group, say};

// More bytes than a group has.
const FILE_ROOM: usize = 4096;

fn try_group(rt: &HostRuntime, name: &[u8]) -> io::Result<Tally> {
    let mut text = [0u8; FILE_ROOM];
    group::try_group(rt, name, &mut text, printing::differs)
}

fn main(rt: HostRuntime) -> io::Result<()> {
    try_group(&rt, b"misstated")?;
    let tally = try_group(&rt, b"papers")?
        .plus(try_group(&rt, b"refusals")?)
        .plus(try_group(&rt, b"misreadings")?)
        .plus(try_group(&rt, b"limits")?)
        .plus(try_group(&rt, b"order")?)
        .plus(try_group(&rt, b"depths")?)
        .plus(try_group(&rt, b"version-2")?)
        .plus(try_group(&rt, b"random")?)
        .plus(try_group(&rt, b"damaged")?)
        .plus(try_group(&rt, b"longer")?)
        .plus(try_group(&rt, b"short")?);
    say::count(&rt, b"all", tally)
}
