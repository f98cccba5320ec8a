// Tries `converter`'s `upgrade` and `downgrade` on books: a line for each difference from what is expected, one for each group of cases,
// then the count.
//
// A group is a file with a case on each line, as `case` says. What `misstated` says is wrong, and each of its cases must differ.
#![tactic(auto)]

mod case;
mod converting;
mod hex;

use std::io;
use test_support::tally::Tally;
use test_support::{group, say};

// More bytes than a file of cases has.
const TEXT_ROOM: usize = 65536;

fn try_group(rt: &HostRuntime, name: &[u8]) -> io::Result<Tally> {
    let mut text = [0u8; TEXT_ROOM];
    group::try_group(rt, name, &mut text, case::differs)
}

fn main(rt: HostRuntime) -> io::Result<()> {
    try_group(&rt, b"misstated")?;
    let tally = try_group(&rt, b"requests")?
        .plus(try_group(&rt, b"upgrade")?)
        .plus(try_group(&rt, b"downgrade")?)
        .plus(try_group(&rt, b"limits")?);
    say::count(&rt, b"all", tally)
}
