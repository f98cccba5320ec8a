// Tables laid down by columns (document 02, C-23): the store of an answer's records, and the records of a store. The contracts cite
// specs/Contract, and through it `Store` of columns_model.
#![tactic(auto)]

mod laying;
mod numbers;
mod raising;
mod shape;

ghost use Rattle.std.specs.Prelude.{◌≡◌, ◌&&◌, ◌∷◌, ◌++◌, ◌-◌, ◌≤◌, eqb, length};
ghost use Rattle.std.proofs.lemmas.List.Edits.{sets};
ghost use Rattle.model.specs.Format.{big_endian};
ghost use Rattle.model.specs.Limits.{term_limit, fact_limit};
ghost use Rattle.columns_model.specs.Differences.{two_bytes};
ghost use Rattle.columns_model.specs.Store.{head_length, store_length, within, sound};
ghost use Rattle.columns.specs.Contract.{Packs, Unpacks};

use laying::put_columns;
use numbers::{count_at, put_number, stated_length};
use raising::fill;
use reader::Transfer;
use refusal::{Refusal, Refused};
use shape::Shape;

// What the caller's lists must have (document 01, "Lent lists"), and the bytes of the largest store.
pub const TERMS_FRONT: usize = 5130;

pub const FACTS_FRONT: usize = 10240;

pub const STORE_ROOM: usize = 30729;

// The widths of the records, and how many of them a store can have.
const TERM_WIDTH: usize = 10;

const FACT_WIDTH: usize = 5;

const TERM_LIMIT: usize = 512;

const FACT_LIMIT: usize = 2048;

// The bytes before the columns, those of a term and of a fact in all their columns, and those of the length itself.
const HEAD_LENGTH: usize = 9;

const TERM_BYTES: usize = 20;

const FACT_BYTES: usize = 10;

const LENGTH_BYTES: usize = 4;

// Where the version and the two counts stand.
const VERSION_PLACE: usize = 4;

const TERMS_PLACE: usize = 5;

const FACTS_PLACE: usize = 7;

const VERSION: u8 = 1;

// What the caller's lists are refused with, and what is no store.
const SHORT_LIST: Refused = Refused {
    refusal: Refusal::ShortList,
    place: 0,
};

const NO_STORE: Refused = Refused {
    refusal: Refusal::Store,
    place: 0,
};

// What `unpack` answers: how many terms and facts the store has.
#[derive(Clone, Copy, Debug, PartialEq, Eq)]
pub struct Stored {
    pub terms: usize,
    pub facts: usize,
}

// How many bytes the store of t terms and f facts has.
fn store_length(t: usize, f: usize) -> usize
    requires { (t ≤ 65535) × (f ≤ 65535) }
    ensures { result ≡ store_length t f }
{
    HEAD_LENGTH + t * TERM_BYTES + f * FACT_BYTES
}

// The length, which is below 65,536, the version and the counts.
fn put_head(t: usize, f: usize, out: &mut [u8])
    requires { (t ≤ term_limit) × (f ≤ fact_limit) × (head_length ≤ length out.old) }
    ensures { out.new ≡ sets out.old 0 (big_endian (store_length t f - 4) ++ (1 ∷ (two_bytes t ++ two_bytes f))) }
{
    let length = (store_length(t, f) - LENGTH_BYTES) as u32;
    out[..LENGTH_BYTES].copy_from_slice(&length.to_be_bytes());
    out[VERSION_PLACE] = VERSION;
    put_number(t as u16, out, TERMS_PLACE);
    put_number(f as u16, out, FACTS_PLACE);
}

// Lays t terms and f facts of the tables down in `out`, and answers how many bytes they take. Tables below their front parts, or an output
// shorter than the largest store, are refused with `ShortList`, and then counts over the limits with `Store`;
// both leave the output as it was.
pub fn pack(t: usize, f: usize, terms: &[u16], facts: &[u16], out: &mut [u8]) -> Transfer
    ensures { Packs t f terms.now facts.now out.old result out.new }
{
    if terms.len() < TERMS_FRONT || facts.len() < FACTS_FRONT || out.len() < STORE_ROOM {
        return Err(SHORT_LIST);
    }
    if TERM_LIMIT < t || FACT_LIMIT < f {
        return Err(NO_STORE);
    }
    put_head(t, f, out);
    put_columns(
        terms,
        Shape {
            width: TERM_WIDTH,
            count: t,
        },
        out,
        HEAD_LENGTH,
    );
    put_columns(
        facts,
        Shape {
            width: FACT_WIDTH,
            count: f,
        },
        out,
        HEAD_LENGTH + t * TERM_BYTES,
    );
    Ok(store_length(t, f))
}

// Whether t terms and f facts are within the limits, and their store has n bytes.
fn fits(t: usize, f: usize, n: usize) -> bool
    ensures { result ≡ within t f && eqb (store_length t f) n }
{
    if TERM_LIMIT < t || FACT_LIMIT < f {
        return false;
    }
    store_length(t, f) == n
}

// Whether bytes are a store: nine or more, the stated length, version 1, and as many as counts within the limits need.
fn is_sound(store: &[u8]) -> bool
    ensures { result ≡ sound store.now }
{
    if store.len() < HEAD_LENGTH {
        return false;
    }
    if stated_length(store) + LENGTH_BYTES != store.len() {
        return false;
    }
    if store[VERSION_PLACE] != VERSION {
        return false;
    }
    fits(
        count_at(store, TERMS_PLACE),
        count_at(store, FACTS_PLACE),
        store.len(),
    )
}

// Fills the front parts of the tables with the records of a store, zeros after, and answers their counts. Tables below their front parts
// are refused with `ShortList`, and then bytes that are no store with `Store`; both leave the tables as they were.
pub fn unpack(store: &[u8], terms: &mut [u16], facts: &mut [u16]) -> Result<Stored, Refused>
    ensures { Unpacks store.now terms.old facts.old result terms.new facts.new }
{
    if terms.len() < TERMS_FRONT || facts.len() < FACTS_FRONT {
        return Err(SHORT_LIST);
    }
    if !is_sound(store) {
        return Err(NO_STORE);
    }
    let t = count_at(store, TERMS_PLACE);
    let f = count_at(store, FACTS_PLACE);
    fill(
        store,
        HEAD_LENGTH,
        Shape {
            width: TERM_WIDTH,
            count: t,
        },
        TERMS_FRONT,
        terms,
    );
    fill(
        store,
        HEAD_LENGTH + t * TERM_BYTES,
        Shape {
            width: FACT_WIDTH,
            count: f,
        },
        FACTS_FRONT,
        facts,
    );
    Ok(Stored { terms: t, facts: f })
}
