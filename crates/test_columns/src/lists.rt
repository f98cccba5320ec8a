// Tables, by the files of their numbers: two bytes each, big-endian, zeros at the end left out.
ghost use Rattle.std.specs.Prelude.{◌≤◌, length};

use test_support::numbers::MARK;

// Room for a file's bytes: more than the largest store and the largest table have.
pub const FILE_ROOM: usize = 30800;

// Number k of a file; one that it lacks is 0.
fn number_in(bytes: &[u8], k: usize) -> u16
    requires { k ≤ 100000 }
{
    let at = 2 * k;
    if bytes.len() < at + 2 {
        return 0;
    }
    u16::from_be_bytes([bytes[at], bytes[at + 1]])
}

// What is expected at a place of a table: the file's number in the front part, and the mark beyond.
fn expected(bytes: &[u8], k: usize, front: usize) -> u16
    requires { k ≤ 100000 }
{
    if k < front {
        return number_in(bytes, k);
    }
    MARK
}

// Puts what is expected into a table.
pub fn put(bytes: &[u8], front: usize, table: &mut [u16])
    requires { length table.old ≤ 100000 }
{
    for k in 0..table.len() {
        table[k] = expected(bytes, k, front);
    }
}

// Whether a table has what is expected.
pub fn is_right(bytes: &[u8], front: usize, table: &[u16]) -> bool
    requires { length table.now ≤ 100000 }
{
    for k in 0..table.len() {
        if table[k] != expected(bytes, k, front) {
            return false;
        }
    }
    true
}
