// What the reader and the writer share: the answer of a parser of model's `Format`, the parsers of one byte and of a number of one byte or two,
// and the faults of a rule that was read whole. The contracts cite specs/Step.
#![tactic(auto)]

pub mod faults;

ghost use Rattle.std.specs.Prelude.{◌≡◌, true};
ghost use Rattle.model.specs.Format as format;
ghost use Rattle.model.specs.Rules as rules;
ghost use Rattle.refusal.specs.Numbers.{number_of};
ghost use Rattle.parsing.specs.Step.{parsed_of, ranged};

use refusal::{Refusal, Refused};

// Predicates have two bytes in every version but this.
const NARROW_VERSION: u8 = 1;

// How many predicates that version has at most, and how many the others.
const NARROW_LIMIT: u16 = 64;

const PREDICATE_LIMIT: u16 = 1024;

// A value that was read, and where to go on. The place stands first: with a value of one byte before it the bytes between the two are copied in
// pieces, and reading and writing take up to a third longer.
#[derive(Clone, Copy)]
pub struct Parsed<T> {
    pub next: usize,
    pub value: T,
}

// What a parser answers.
pub type Step<T> = Result<Parsed<T>, Refused>;

// Whether the count of predicates and their numbers have two bytes.
pub fn is_wide(version: u8) -> bool
    ensures { result ≡ rules.wide version }
{
    NARROW_VERSION < version
}

// How many predicates a version has at most.
pub fn most_predicates(version: u8) -> u16
    ensures { result ≡ rules.most_predicates version }
{
    if is_wide(version) {
        return PREDICATE_LIMIT;
    }
    NARROW_LIMIT
}

// A byte from low to high at i.
pub fn byte(bytes: &[u8], low: u8, high: u8, refusal: Refusal, i: usize) -> Step<u8>
    ensures { parsed_of result ≡ format.byte bytes.now low high (number_of refusal) i }
{
    if bytes.len() <= i {
        return Err(Refused {
            refusal: Refusal::End,
            place: bytes.len(),
        });
    }
    let value = bytes[i];
    if value < low || high < value {
        return Err(Refused { refusal, place: i });
    }
    Ok(Parsed { value, next: i + 1 })
}

// A number that stands at i, if it is from low to high.
fn within(value: u16, low: u16, high: u16, refusal: Refusal, i: usize, next: usize) -> Step<u16>
    ensures { parsed_of result ≡ ranged value low high (number_of refusal) i next }
{
    if value < low || high < value {
        return Err(Refused { refusal, place: i });
    }
    Ok(Parsed { value, next })
}

// A number of one byte.
fn narrow_number(bytes: &[u8], low: u16, high: u16, refusal: Refusal, i: usize) -> Step<u16>
    ensures { parsed_of result ≡ format.byte bytes.now low high (number_of refusal) i }
{
    let only = byte(bytes, 0, u8::MAX, refusal, i)?;
    within(u16::from(only.value), low, high, refusal, i, only.next)
}

// A number of two bytes, big-endian. One that is cut short is the refusal of the end, whatever its first byte is.
fn wide_number(bytes: &[u8], low: u16, high: u16, refusal: Refusal, i: usize) -> Step<u16>
    ensures { parsed_of result ≡ format.number true bytes.now low high (number_of refusal) i }
{
    let first = byte(bytes, 0, u8::MAX, refusal, i)?;
    let second = byte(bytes, 0, u8::MAX, refusal, first.next)?;
    let value = u16::from_be_bytes([first.value, second.value]);
    within(value, low, high, refusal, i, second.next)
}

// A number from low to high at i, as long as the version has it: a count of predicates, or a predicate.
pub fn number(
    bytes: &[u8],
    version: u8,
    low: u16,
    high: u16,
    refusal: Refusal,
    i: usize,
) -> Step<u16>
    ensures { parsed_of result ≡ format.number (rules.wide version) bytes.now low high (number_of refusal) i }
{
    if is_wide(version) {
        return wide_number(bytes, low, high, refusal, i);
    }
    narrow_number(bytes, low, high, refusal, i)
}

// A variable of an atom: C-16 widens this reading alone.
pub fn variable(bytes: &[u8], i: usize) -> Step<u8>
    ensures { parsed_of result ≡ format.variable bytes.now i }
{
    byte(bytes, 0, 7, Refusal::Symbol, i)
}
