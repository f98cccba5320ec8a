// `pack` and `unpack` as a static library (bindings/c/rulfjen_columns.h): numbers and lists cross, and nothing else. The contracts equate all
// that a call returns and leaves behind with the definitions, by the numbers of specs/Numbers.
#![tactic(auto)]

ghost use Rattle.std.specs.Prelude.{◌≡◌};
ghost use Rattle.columns.specs.Contract.{answer_of};
ghost use Rattle.columns_model.specs.Store.{packed, unpacked};
ghost use Rattle.embed_columns.specs.Numbers.{unpack_number, unpack_values, of_packed, of_unpacked};

use columns::{Stored, pack, unpack};
use crossing::transfer;
use refusal::Refused;

// The number that is returned for what `unpack` answers, and the two that are left in `counts`.
fn counted(answer: Result<Stored, Refused>, counts: &mut [usize; 2]) -> usize
    ensures { (result ≡ unpack_number (answer_of answer)) × (counts.new ≡ unpack_values (answer_of answer)) }
{
    match answer {
        Ok(stored) => {
            *counts = [stored.terms, stored.facts];
            0
        }
        Err(refused) => {
            *counts = [refused.place, 0];
            usize::from(refused.refusal)
        }
    }
}

// Lays the records of t terms and f facts down in a store.
#[unsafe(no_mangle)]
pub extern "C" fn rulfjen_pack(
    t: usize,
    f: usize,
    terms: &[u16],
    facts: &[u16],
    store: &mut [u8],
    value: &mut usize,
) -> usize
    ensures { of_packed (packed t f terms.now facts.now store.old) ≡ record { number = result; value = value.new; store = store.new } }
{
    transfer(pack(t, f, terms, facts, store), value)
}

// Fills the tables with the records of a store.
#[unsafe(no_mangle)]
pub extern "C" fn rulfjen_unpack(
    store: &[u8],
    terms: &mut [u16],
    facts: &mut [u16],
    counts: &mut [usize; 2],
) -> usize
    ensures { of_unpacked (unpacked store.now terms.old facts.old) ≡ record { number = result; counts = counts.new; terms = terms.new; facts = facts.new } }
{
    counted(unpack(store, terms, facts), counts)
}
