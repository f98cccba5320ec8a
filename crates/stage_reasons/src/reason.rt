// For which variables a trigger is blocked: with ⋆ for every other variable it is blocked still, and so is every trigger that has its terms there.
// The contracts cite specs/Starred, specs/Decisive and specs/Reason.
ghost use Rattle.std.specs.Prelude.{◌≡◌, true, ◌<◌, length};
ghost use Rattle.std.specs.Option.{ForSome};
ghost use Rattle.model.specs.Lists.{all};
ghost use Rattle.model.specs.Rules.{frontier, existential_free, entries};
ghost use Rattle.model.specs.Form.{decoded};
ghost use Rattle.tables.specs.Rows.{rows};
ghost use Rattle.tables.specs.Terms.{Ordered};
ghost use Rattle.form.specs.Places.{RuleAt, rule_of, disjunct_of};
ghost use Rattle.form_functions.specs.Functions.{EntryAt, entry_of};
ghost use Rattle.form_variables.specs.Sets.{set_of};
ghost use Rattle.blocking.specs.Start.{chosen_terms, Testing};
ghost use Rattle.rows.specs.Test.{test};
ghost use Rattle.stage_reasons.specs.Starred.{starred};
ghost use Rattle.stage_reasons.specs.Decisive.{decisive};
ghost use Rattle.stage_reasons.specs.Reason.{is_blocked, BlockedFor, Starrable};

use crate::stars::starred;
use stage_output::cyclic::Ground;
use variable_order::all_variables;

// The variables by which the facts of disjunct `d` of rule `i` are told: its own, or all of the frontier, if it has existential variables.
pub fn own_variables(form: &[u16], i: usize, d: usize, all: u8) -> u8
    requires { RuleAt form.now i × (d < length (rule_of form.now i).head) × (all ≡ set_of (frontier (rule_of form.now i))) }
    ensures { result ≡ set_of (decisive (rule_of form.now i) (disjunct_of form.now i d)) }
{
    if form_variables::skolem_count(form, i, d) != 0 {
        return all;
    }
    all_variables(form::atoms::disjunct(form, i, d))
}

// Whether no disjunct of rule `i` has existential variables.
fn is_existential_free(form: &[u16], i: usize) -> bool
    requires { RuleAt form.now i }
    ensures { result ≡ all (existential_free (rule_of form.now i)) (rule_of form.now i).head }
{
    let count = form::counts::disjunct_count(form, i);
    (0..count).all(|d| form_variables::skolem_count(form, i, d) == 0)
}

// Whether the trigger is blocked with ⋆ outside a set.
#[tactic(auto, unfolding(crate::specs::Reason::is_blocked))]
fn blocked_outside(
    form: &[u16],
    before: &[u16],
    i: usize,
    set: u8,
    trigger: [u16; 8],
    terms: &[u16],
    left: Ground,
) -> bool
    requires { EntryAt form.now before.now i × Ordered left.terms terms.now × Testing form.now i (rows 10 left.terms terms.now) (starred set trigger) }
    ensures { result ≡ is_blocked (test (entries (decoded form.now)) (entry_of form.now i) (rows 10 left.terms terms.now) (chosen_terms form.now i (starred set trigger))) }
{
    let least = starred(set, trigger);
    matches!(
        blocking::test(form, before, i, least, terms, left.terms),
        blocking::Outcome::Blocked
    )
}

// Whether a trigger of a rule without existential variables is blocked for the variables of one disjunct that has not the whole frontier.
fn blocked_for_disjunct(
    form: &[u16],
    before: &[u16],
    i: usize,
    whole: u8,
    trigger: [u16; 8],
    terms: &[u16],
    left: Ground,
) -> Option<u8>
    requires { Starrable form.now before.now i whole trigger left terms.now × (all (existential_free (rule_of form.now i)) (rule_of form.now i).head ≡ true) }
    ensures { ForSome result (λ set. BlockedFor form.now i (rows 10 left.terms terms.now) trigger set) }
{
    let count = form::counts::disjunct_count(form, i);
    for d in 0..count {
        let own = own_variables(form, i, d, whole);
        if own != whole && blocked_outside(form, before, i, own, trigger, terms, left) {
            return Some(own);
        }
    }
    None
}

// For which variables a trigger is blocked, where that is known: those of one disjunct, or the frontier.
pub fn blocked_for(
    form: &[u16],
    before: &[u16],
    i: usize,
    whole: u8,
    trigger: [u16; 8],
    terms: &[u16],
    left: Ground,
) -> Option<u8>
    requires { Starrable form.now before.now i whole trigger left terms.now }
    ensures { ForSome result (λ set. BlockedFor form.now i (rows 10 left.terms terms.now) trigger set) }
{
    if is_existential_free(form, i) {
        let own = blocked_for_disjunct(form, before, i, whole, trigger, terms, left);
        if own.is_some() {
            return own;
        }
    }
    blocked_outside(form, before, i, whole, trigger, terms, left).then_some(whole)
}
