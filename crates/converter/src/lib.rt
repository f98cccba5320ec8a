// Converters of rule sets between versions 1 and 2 of their bytes (document 02, C-15). The contracts cite converter_model's Converter and
// specs/Contract.
#![tactic(auto)]

ghost use Rattle.std.specs.Prelude.{◌≡◌};
ghost use Rattle.parsing.specs.Step.{parsed_of};
ghost use Rattle.converter_model.specs.Converter as model;
ghost use Rattle.converter.specs.Contract.{Rewrites, Known, Converts};

use form::layout::{LENGTH, VERSION};
use parsing::{Step, byte, number};
use reader::Transfer;
use refusal::{Refusal, Refused};

// Room for the longest rule set, which an output has to have.
const BYTES_LIMIT: usize = 9096;

// Version 1 has at most so many predicates.
const NARROW_LIMIT: u16 = 64;

// The version's byte, and a count of predicates that version 1 has too.
fn opening(bytes: &[u8], version: u8) -> Step<u16>
    ensures { parsed_of result ≡ model.opening version bytes.now }
{
    let i = byte(bytes, version, version, Refusal::Version, 4)?.next;
    number(bytes, version, 1, NARROW_LIMIT, Refusal::Predicates, i)
}

// The rule set of these bytes, written in another version.
fn rewrite(bytes: &[u8], version: u8, out: &mut [u8]) -> Transfer
    ensures { Rewrites version bytes.now out.old result out.new }
{
    let mut form = [0u16; LENGTH];
    reader::read_afresh(bytes, &mut form)?;
    form[VERSION] = u16::from(version);
    writer::write(&form, out)
}

// From one version to another: after every refusal the output is as it was.
fn convert(bytes: &[u8], from: u8, to: u8, out: &mut [u8]) -> Transfer
    requires { Known to }
    ensures { Converts from to bytes.now out.old result out.new }
{
    if out.len() < BYTES_LIMIT {
        return Err(Refused {
            refusal: Refusal::ShortList,
            place: 0,
        });
    }
    if !reader::is_whole(bytes) {
        return Err(Refused {
            refusal: Refusal::Length,
            place: 0,
        });
    }
    opening(bytes, from)?;
    rewrite(bytes, to, out)
}

// The bytes of a rule set of version 1 in version 2.
pub fn upgrade(bytes: &[u8], out: &mut [u8]) -> Transfer
    ensures { Converts 1 2 bytes.now out.old result out.new }
{
    convert(bytes, 1, 2, out)
}

// The bytes of a rule set of version 2 in version 1, which has at most 64 predicates.
pub fn downgrade(bytes: &[u8], out: &mut [u8]) -> Transfer
    ensures { Converts 2 1 bytes.now out.old result out.new }
{
    convert(bytes, 2, 1, out)
}
