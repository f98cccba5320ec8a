// The counts and arities of a form. Contracts: specs/Places.
ghost use Rattle.std.specs.Prelude.{◌≡◌, ◌<◌, length, get_or};
ghost use Rattle.form.specs.Places.{body_place, disjunct_place, Held, GroupAt, group_of, arities_of, rules_of, rule_of, disjunct_of};

use crate::layout::{
    PREDICATE_COUNT, RULE_COUNT, arity_place, body_place, disjunct_place, rule_place,
};

pub fn predicate_count(form: &[u16]) -> usize
    requires { Held form.now }
    ensures { result ≡ length (arities_of form.now) }
{
    usize::from(form[PREDICATE_COUNT])
}

pub fn rule_count(form: &[u16]) -> usize
    requires { Held form.now }
    ensures { result ≡ length (rules_of form.now) }
{
    usize::from(form[RULE_COUNT])
}

// The arity of predicate `p`.
pub fn arity(form: &[u16], p: usize) -> usize
    requires { Held form.now × (p < length (arities_of form.now)) }
    ensures { result ≡ get_or (arities_of form.now) p 0 }
{
    usize::from(form[arity_place(p)])
}

// How many atoms the group at a place has.
pub fn group_count(form: &[u16], at: usize) -> usize
    requires { GroupAt form.now at }
    ensures { result ≡ length (group_of form.now at) }
{
    usize::from(form[at])
}

// The place of the body of rule `i`, where a group of the form stands.
pub fn body_group(form: &[u16], i: usize) -> usize
    requires { Held form.now × (i < length (rules_of form.now)) }
    ensures { GroupAt form.now result × (group_of form.now result ≡ (rule_of form.now i).body) × (result ≡ body_place i) }
{
    body_place(i)
}

// The place of disjunct `d` of rule `i`, where a group of the form stands.
pub fn disjunct_group(form: &[u16], i: usize, d: usize) -> usize
    requires { Held form.now × (i < length (rules_of form.now)) × (d < length (rule_of form.now i).head) }
    ensures { GroupAt form.now result × (group_of form.now result ≡ disjunct_of form.now i d) × (result ≡ disjunct_place i d) }
{
    disjunct_place(i, d)
}

// How many body atoms rule `i` has.
pub fn body_count(form: &[u16], i: usize) -> usize
    requires { Held form.now × (i < length (rules_of form.now)) }
    ensures { result ≡ length (rule_of form.now i).body }
{
    group_count(form, body_group(form, i))
}

// How many disjuncts rule `i` has.
pub fn disjunct_count(form: &[u16], i: usize) -> usize
    requires { Held form.now × (i < length (rules_of form.now)) }
    ensures { result ≡ length (rule_of form.now i).head }
{
    usize::from(form[rule_place(i)])
}

// How many atoms disjunct `d` of rule `i` has.
pub fn atom_count(form: &[u16], i: usize, d: usize) -> usize
    requires { Held form.now × (i < length (rules_of form.now)) × (d < length (rule_of form.now i).head) }
    ensures { result ≡ length (disjunct_of form.now i d) }
{
    group_count(form, disjunct_group(form, i, d))
}
