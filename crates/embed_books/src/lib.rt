// `upgrade` and `downgrade` as a static library (bindings/c/rulfjen_books.h): numbers and lists cross, and nothing else. The contracts equate all
// that a call returns and leaves behind with the definitions, by the numbers of specs/Numbers.
#![tactic(auto)]

ghost use Rattle.std.specs.Prelude.{◌≡◌};
ghost use Rattle.converter_model.specs.Converter.{upgrading, downgrading};
ghost use Rattle.embed_books.specs.Numbers.{of_writing};

use converter::{downgrade, upgrade};
use crossing::transfer;

// Writes the bytes of a rule set of version 1 in version 2.
#[unsafe(no_mangle)]
pub extern "C" fn rulfjen_upgrade(book: &[u8], out: &mut [u8], value: &mut usize) -> usize
    ensures { of_writing (upgrading book.now out.old) ≡ record { number = result; value = value.new; list = out.new } }
{
    transfer(upgrade(book, out), value)
}

// Writes the bytes of a rule set of version 2 in version 1.
#[unsafe(no_mangle)]
pub extern "C" fn rulfjen_downgrade(book: &[u8], out: &mut [u8], value: &mut usize) -> usize
    ensures { of_writing (downgrading book.now out.old) ≡ record { number = result; value = value.new; list = out.new } }
{
    transfer(downgrade(book, out), value)
}
