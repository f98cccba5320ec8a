// The check: the answer on a rule set's bytes, and the caller's tables. The contracts cite specs/Checking and specs/Promises.
#![tactic(auto)]

mod caller_tables;

ghost use Rattle.std.specs.Prelude.{◌≡◌, ◌≤◌, length};
ghost use Rattle.model.specs.Limits.{fact_room, terms_front, facts_front};
ghost use Rattle.model.specs.Tables.{is_depth};
ghost use Rattle.form.specs.Places.{Held};
ghost use Rattle.tables.specs.TermHash.{KeptTerms};
ghost use Rattle.facts.specs.Hashed.{Kept};
ghost use Rattle.dmfa.specs.Promises.{Checks};
ghost use Rattle.dmfa.specs.Checking.{small_room, Checkable, Leaves, CheckedAs};

use crate::caller_tables::fill;
use judging::judge;
use judging::verdict::Verdict;
use refusal::{Refusal, Refused};

// The caller's tables begin with 513 terms, those of a stage and a cyclic one, and with 2,048 facts.
const TERMS_FRONT: usize = 5130;

const FACTS_FRONT: usize = 10240;

// The greatest depth.
const DEPTH_LIMIT: usize = 3;

// A term has ten numbers, a fact five.
const TERM_WIDTH: usize = 10;

const FACT_WIDTH: usize = 5;

// Room for 640 terms; and for 8,708, all that can be made of a stage, and the 64 of an output more. A term has ten numbers and a link, and
// behind them stand 512 buckets.
const SMALL_ROOM: usize = 7680;

const LARGE_ROOM: usize = 105264;

// Room for 2,049 facts, all that can be made of a stage; behind them a link for each, and 1,024 buckets.
const FACTS_ROOM: usize = 13318;

// A form, and how many Skolem functions come before each of 64 times four disjuncts.
const FORM_LENGTH: usize = 7812;

const DISJUNCTS: usize = 256;

// The verdict, with room for the stages' terms and for their facts, both hashed, and the fronts of the caller's two tables. None: the room for
// terms was short, and these stay as they were.
fn check_by(
    form: &[u16],
    before: &[u16],
    room: &mut [u16],
    hashed: &mut [u16],
    terms: &mut [u16],
    facts: &mut [u16],
    depth: u8,
) -> Option<Verdict>
    requires { Checkable depth form.now before.now terms.old facts.old × KeptTerms room.old 0 × Kept hashed.old 0 fact_room }
    ensures { CheckedAs depth form.now (length room.old) terms.old facts.old result terms.new facts.new }
{
    let answer = judge(form, before, room, hashed, depth)?;
    fill(room, answer.terms * TERM_WIDTH, TERMS_FRONT, terms);
    fill(hashed, answer.facts * FACT_WIDTH, FACTS_FRONT, facts);
    Some(answer.verdict)
}

// The verdict if 640 terms are room enough, as they are for nearly every rule set: less is to be cleared.
fn check_small(
    form: &[u16],
    before: &[u16],
    terms: &mut [u16],
    facts: &mut [u16],
    depth: u8,
) -> Option<Verdict>
    requires { Checkable depth form.now before.now terms.old facts.old }
    ensures { CheckedAs depth form.now small_room terms.old facts.old result terms.new facts.new }
{
    let mut stage_terms = [0u16; SMALL_ROOM];
    let mut stage_facts = [0u16; FACTS_ROOM];
    check_by(
        form,
        before,
        &mut stage_terms,
        &mut stage_facts,
        terms,
        facts,
        depth,
    )
}

// The verdict with room for all terms that can be made of a stage, and for an output more.
fn check_large(
    form: &[u16],
    before: &[u16],
    terms: &mut [u16],
    facts: &mut [u16],
    depth: u8,
) -> Verdict
    requires { Checkable depth form.now before.now terms.old facts.old }
    ensures { Leaves depth form.now terms.old facts.old result terms.new facts.new }
{
    let mut stage_terms = [0u16; LARGE_ROOM];
    let mut stage_facts = [0u16; FACTS_ROOM];
    check_by(
        form,
        before,
        &mut stage_terms,
        &mut stage_facts,
        terms,
        facts,
        depth,
    )
    .unwrap()
}

// The verdict on the rule set of a form at a depth, and the fronts of the caller's two tables.
fn check_form(form: &[u16], terms: &mut [u16], facts: &mut [u16], depth: u8) -> Verdict
    requires { (1 ≤ depth) × Held form.now × (terms_front ≤ length terms.old) × (facts_front ≤ length facts.old) }
    ensures { Leaves depth form.now terms.old facts.old result terms.new facts.new }
{
    let mut before = [0u16; DISJUNCTS];
    form_functions::number_functions(form, &mut before);
    match check_small(form, &before, terms, facts, depth) {
        Some(verdict) => verdict,
        None => check_large(form, &before, terms, facts, depth),
    }
}

// Whether a number is a depth: 1, 2 or 3.
pub fn is_depth(depth: usize) -> bool
    ensures { result ≡ is_depth depth }
{
    (1..=DEPTH_LIMIT).contains(&depth)
}

// The verdict on a rule set given as bytes, at a depth from 1 to 3, and the caller's two tables.
pub fn check(bytes: &[u8], depth: usize, terms: &mut [u16], facts: &mut [u16]) -> Verdict
    ensures { Checks depth bytes.now terms.old facts.old result terms.new facts.new }
{
    if terms.len() < TERMS_FRONT || facts.len() < FACTS_FRONT {
        return Verdict::from(Refused {
            refusal: Refusal::ShortList,
            place: 0,
        });
    }
    if !is_depth(depth) {
        return Verdict::from(Refused {
            refusal: Refusal::Depth,
            place: 0,
        });
    }
    let mut form = [0u16; FORM_LENGTH];
    match reader::read_afresh(bytes, &mut form) {
        Ok(_) => check_form(&form, terms, facts, depth as u8),
        Err(refused) => Verdict::from(refused),
    }
}
