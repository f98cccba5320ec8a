// Words and numbers of a text. Every function writes into `out` from a place on and answers the place behind what it wrote. The contracts
// cite specs/Writing.
ghost use Rattle.std.specs.Prelude.{◌≡◌, [], ◌∷◌, length};
ghost use Rattle.model.specs.Text.{decimal};
ghost use Rattle.text.specs.Writing.{Room, Writes};
ghost use Rattle.laws_tables.specs.Lines.{spaced};

// How many decimal digits `n` has.
fn digit_count(n: usize) -> usize
    ensures { result ≡ length (decimal n) }
{
    let mut count = 1;
    let mut rest = n;
    while rest >= 10 {
        rest /= 10;
        count += 1;
    }
    count
}

// The digits of `n`, the last one first.
fn write_decimal(n: usize, out: &mut [u8], at: usize) -> usize
    requires { Room (decimal n) at out.old }
    ensures { Writes (decimal n) at out.old out.new result }
{
    let count = digit_count(n);
    let mut rest = n;
    for i in (0..count).rev() {
        out[at + i] = b'0' + (rest % 10) as u8;
        rest /= 10;
    }
    at + count
}

// A space and a number.
pub fn write_number(n: usize, out: &mut [u8], at: usize) -> usize
    requires { Room (32 ∷ decimal n) at out.old }
    ensures { Writes (32 ∷ decimal n) at out.old out.new result }
{
    out[at] = b' ';
    write_decimal(n, out, at + 1)
}

// Numbers, each behind its space.
pub fn write_numbers(numbers: &[u16], out: &mut [u8], at: usize) -> usize
    requires { Room (spaced numbers.now) at out.old }
    ensures { Writes (spaced numbers.now) at out.old out.new result }
{
    let mut end = at;
    for &n in numbers {
        end = write_number(usize::from(n), out, end);
    }
    end
}

pub fn write_word(word: &[u8], out: &mut [u8], at: usize) -> usize
    requires { Room word.now at out.old }
    ensures { Writes word.now at out.old out.new result }
{
    let end = at + word.len();
    out[at..end].copy_from_slice(word);
    end
}

pub fn write_newline(out: &mut [u8], at: usize) -> usize
    requires { Room (10 ∷ []) at out.old }
    ensures { Writes (10 ∷ []) at out.old out.new result }
{
    out[at] = b'\n';
    at + 1
}
