// Bytes that are spelled by two digits each, of 0 to 9 and a to f.
ghost use Rattle.std.specs.Prelude.{◌≤◌, length};

// More bytes than a book of a case has.
pub const ROOM: usize = 9100;

// What a digit stands for; 0 for another byte.
fn value(digit: u8) -> u8
    ensures { result ≤ 15 }
{
    if digit < b'0' {
        return 0;
    }
    if digit <= b'9' {
        return digit - b'0';
    }
    if digit < b'a' {
        return 0;
    }
    if digit <= b'f' {
        return digit - b'a' + 10;
    }
    0
}

// Byte k of those that a text spells; 0 where its digits are lacking.
fn byte_in(text: &[u8], k: usize) -> u8
    requires { k ≤ 10000 }
{
    let at = 2 * k;
    if text.len() < at + 2 {
        return 0;
    }
    value(text[at]) * 16 + value(text[at + 1])
}

// Puts the bytes that a text spells into a list, and zeros behind them.
fn put(text: &[u8], list: &mut [u8])
    requires { length list.old ≤ 10000 }
{
    for k in 0..list.len() {
        list[k] = byte_in(text, k);
    }
}

// The bytes that a text spells in the front of a list, and how many; none for `-`, nor where they do not fit.
pub fn load(text: &[u8], list: &mut [u8]) -> usize
    requires { length list.old ≤ 10000 }
    ensures { result ≤ length list.new }
{
    put(text, &mut *list);
    let n = text.len() / 2;
    if list.len() < n {
        return 0;
    }
    n
}
