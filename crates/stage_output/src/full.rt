// Whether a term of the stage that is left is full for a Skolem function of a rule: without one, none of the rule's triggers has a cyclic row. The
// contracts cite specs/Full of laws_skipping.
ghost use Rattle.std.specs.Prelude.{◌≡◌, suc, ◌≤◌, ◌<◌, length};
ghost use Rattle.model.specs.Lists.{all};
ghost use Rattle.laws.specs.Lists.{rising};
ghost use Rattle.laws_skipping.specs.Full.{none_full_of, functions_of, none_full};
ghost use Rattle.form.specs.Places.{rule_of};
ghost use Rattle.form_functions.specs.Functions.{entry_of, numbered_of};
ghost use Rattle.outputs.specs.Skolem.{number_limit};
ghost use Rattle.stage_output.specs.Cyclic.{ground_in, Standable};
ghost use Rattle.stage_output.specs.Making.{RuleAt};

use crate::cyclic::Ground;

// A stage has at most 512 terms.
const TERM_LIMIT: usize = 512;

// Whether no term of a stage is full for Skolem function `f`.
fn none_full_of(terms: &[u16], left: Ground, f: u16) -> bool
    requires { Standable left terms.now }
    ensures { result ≡ none_full_of (ground_in left terms.now) f }
{
    // as if `f` stood once above each term
    let mut marks: [u8; TERM_LIMIT] = [1; TERM_LIMIT];
    !tables::nests_in_marked(terms, left.terms, f, left.depth, &mut marks)
}

// Whether no term is full for one of the `count` Skolem functions numbered behind `before`.
fn none_full_behind(terms: &[u16], left: Ground, before: u16, count: usize) -> bool
    requires { Standable left terms.now × (before < number_limit) × (count ≤ 8) }
    ensures { result ≡ all (none_full_of (ground_in left terms.now)) (rising (suc before) count) }
{
    for k in 0..count {
        if !none_full_of(terms, left, before + 1 + k as u16) {
            return false;
        }
    }
    true
}

// Whether no term is full for a Skolem function of disjunct `d` of rule `i`.
fn none_full_at(
    form: &[u16],
    before: &[u16],
    i: usize,
    d: usize,
    terms: &[u16],
    left: Ground,
) -> bool
    requires { RuleAt form.now before.now i × (d < length (rule_of form.now i).head) × Standable left terms.now }
    ensures { result ≡ all (none_full_of (ground_in left terms.now)) (functions_of (numbered_of form.now i d)) }
{
    let count = form_variables::skolem_count(form, i, d);
    none_full_behind(terms, left, before[i * 4 + d], count)
}

// Whether no term of the stage that is left is full for a Skolem function of rule `i`.
pub fn none_full(form: &[u16], before: &[u16], i: usize, terms: &[u16], left: Ground) -> bool
    requires { RuleAt form.now before.now i × Standable left terms.now }
    ensures { result ≡ none_full (ground_in left terms.now) (entry_of form.now i).disjuncts }
{
    let count = form::counts::disjunct_count(form, i);
    for d in 0..count {
        if !none_full_at(form, before, i, d, terms, left) {
            return false;
        }
    }
    true
}
