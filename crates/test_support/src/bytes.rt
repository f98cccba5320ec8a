// Lists of bytes that were full of the mark, which no text has, and a book only in its length or in the second byte of a number. The contracts cite
// specs/Same.
ghost use Rattle.std.specs.Prelude.{◌≡◌, get_or};
ghost use Rattle.test_support.specs.Same.{Decides, front, byte_mark};

pub const MARK: u8 = 238;

// The byte at k, or beyond the last one the mark.
fn byte_or_mark(bytes: &[u8], k: usize) -> u8
    ensures { result ≡ get_or bytes.now k byte_mark }
{
    if k < bytes.len() {
        return bytes[k];
    }
    MARK
}

// Whether a list of marks has these bytes in its front, and marks beyond.
fn is_front(bytes: &[u8], list: &[u8]) -> bool
    ensures { Decides result list.now (λ k. get_or bytes.now k byte_mark) }
{
    for k in 0..list.len() {
        if list[k] != byte_or_mark(bytes, k) {
            return false;
        }
    }
    true
}

// Whether a list of marks is as this answer leaves it: a refusal leaves the marks.
pub fn is_right(bytes: &[u8], refusal: usize, list: &[u8]) -> bool
    ensures { Decides result list.now (λ k. get_or (front refusal bytes.now) k byte_mark) }
{
    if refusal == 0 {
        return is_front(bytes, list);
    }
    is_front(&bytes[0..0], list)
}
