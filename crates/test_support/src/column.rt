// Lines of fixed columns. The contracts cite specs/Columns, for the functions of the same names.
ghost use Rattle.std.specs.Prelude.{◌≡◌, ◌≤◌, length};
ghost use Rattle.test_support.specs.Columns as columns;

// Where a byte stands next, from i on; the text's end where it does not.
pub fn find(text: &[u8], i: usize, byte: u8) -> usize
    requires { i ≤ length text.now }
    ensures { columns.Next byte text.now i result }
{
    for k in i..text.len() {
        if text[k] == byte {
            return k;
        }
    }
    text.len()
}

// Where the line that i stands in ends: its line end, or the text's end.
pub fn line_end(text: &[u8], i: usize) -> usize
    requires { i ≤ length text.now }
    ensures { columns.Next 10 text.now i result }
{
    find(text, i, b'\n')
}

// The digit at i; 0 where there is none.
fn digit(line: &[u8], i: usize) -> usize
    ensures { (result ≡ columns.digit line.now i) × (result ≤ 9) }
{
    if line.len() <= i {
        return 0;
    }
    let b = line[i];
    if b < b'0' {
        return 0;
    }
    if b'9' < b {
        return 0;
    }
    usize::from(b - b'0')
}

// The number that two digits from i on spell.
pub fn two(line: &[u8], i: usize) -> usize
    requires { i ≤ 30 }
    ensures { (result ≡ columns.two line.now i) × (result ≤ 99) }
{
    digit(line, i) * 10 + digit(line, i + 1)
}

// The number that four digits from i on spell.
pub fn four(line: &[u8], i: usize) -> usize
    requires { i ≤ 28 }
    ensures { (result ≡ columns.four line.now i) × (result ≤ 9999) }
{
    two(line, i) * 100 + two(line, i + 2)
}
