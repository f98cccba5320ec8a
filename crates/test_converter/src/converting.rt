// A converter over outputs that were full of marks. `way` is `upgrade` or `downgrade`, and `back` the other.
ghost use Rattle.std.specs.Prelude.{◌≡◌};

use reader::Transfer;
use std::io;
use test_support::answer::{Answer, is_other, shown};
use test_support::{bytes, say};

// The shortest output that the converters take.
const OUTPUT_ROOM: usize = 9096;

// A longer one.
const LONGER_ROOM: usize = OUTPUT_ROOM + 57;

// What a case is about: its line, the book, and what is written of it.
#[derive(Clone, Copy)]
pub struct Case<'a> {
    pub line: &'a [u8],
    pub answer: Answer,
    pub book: &'a [u8],
    pub written: &'a [u8],
}

// Whether these bytes, converted back, are not the book.
fn is_lost<B: Fn(&[u8], &mut [u8]) -> Transfer>(back: B, case: Case<'_>) -> bool
    requires { B.IsAlwaysCallable back }
{
    let mut out = [bytes::MARK; OUTPUT_ROOM];
    let found = shown(back(case.written, &mut out[..]));
    found.refusal != 0 || found.place != case.book.len() || !bytes::is_right(case.book, 0, &out[..])
}

// Whether the answer or the output differs.
fn compared<W: Fn(&[u8], &mut [u8]) -> Transfer>(
    rt: &HostRuntime,
    way: &W,
    case: Case<'_>,
    out: &mut [u8],
) -> io::Result<bool>
    requires { W.IsAlwaysCallable way.now }
{
    let found = shown(way(case.book, &mut *out));
    if is_other(rt, case.line, case.answer, found)? {
        return Ok(true);
    }
    if bytes::is_right(case.written, found.refusal, out) {
        return Ok(false);
    }
    say::note(rt, case.line, b"other bytes")
}

// Whether the answer, the output or the way back differs, over an output that is just long enough and a longer one; and whether an output that is
// one byte short is not refused, or touched.
pub fn differs<W: Fn(&[u8], &mut [u8]) -> Transfer, B: Fn(&[u8], &mut [u8]) -> Transfer>(
    rt: &HostRuntime,
    way: W,
    back: B,
    case: Case<'_>,
) -> io::Result<bool>
    requires way { W.IsAlwaysCallable way }
    requires back { B.IsAlwaysCallable back }
{
    let mut out = [bytes::MARK; OUTPUT_ROOM];
    if compared(rt, &way, case, &mut out[..])? {
        return Ok(true);
    }
    let mut longer = [bytes::MARK; LONGER_ROOM];
    if compared(rt, &way, case, &mut longer[..])? {
        return Ok(true);
    }
    if case.answer.refusal == 0 {
        if is_lost(back, case) {
            return say::note(rt, case.line, b"not converted back");
        }
    }
    let mut short = [bytes::MARK; OUTPUT_ROOM - 1];
    let refused = Case {
        line: case.line,
        answer: Answer {
            refusal: 1,
            place: 0,
        },
        book: case.book,
        written: &case.book[0..0],
    };
    compared(rt, &way, refused, &mut short[..])
}
