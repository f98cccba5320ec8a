// The numbers of a rule set's Skolem functions: from 1 on, by rule, disjunct and variable. Contracts: specs/Functions, which model's
// `entries` agrees with.
#![tactic(auto)]

ghost use Rattle.std.specs.Prelude.{◌≡◌, ◌++◌, ◌+◌, ◌≤◌, ◌<◌, length, get_or, drop};
ghost use Rattle.form.specs.Places.{Held};
ghost use Rattle.form_functions.specs.Functions.{places, functions_at, functions_before, numbering, Numbered, Owned};

use form::counts::{disjunct_count, rule_count};
use form_variables::skolem_count;

// How many Skolem functions the disjunct of a place has.
fn functions_at(form: &[u16], j: usize) -> usize
    requires { Held form.now × (j < places form.now) }
    ensures { result ≡ functions_at form.now j }
{
    let i = j / 4;
    let d = j % 4;
    if d < disjunct_count(form, i) {
        skolem_count(form, i, d)
    } else {
        0
    }
}

// For each place how many Skolem functions are numbered before its own, and how many there are in all.
pub fn number_functions(form: &[u16], before: &mut [u16]) -> usize
    requires { Held form.now × (places form.now ≤ length before.old) }
    ensures { (result ≡ functions_before form.now (places form.now)) × (before.new ≡ numbering form.now (places form.now) ++ drop (places form.now) before.old) }
{
    let n = rule_count(form) * 4;
    let mut total: usize = 0;
    for j in 0..n {
        before[j] = total as u16;
        total += functions_at(form, j);
    }
    total
}

// The last of `n` places before which fewer than `f` Skolem functions are numbered, of numbers that rise.
fn place_of(before: &[u16], n: usize, f: u16) -> usize
    requires { (1 ≤ n) × (n ≤ length before.now) × (get_or before.now 0 0 < f) }
    ensures { (result < n) × (get_or before.now result 0 < f) × (result + 1 < n → f ≤ get_or before.now (result + 1) 0) }
{
    (1..n).find(|&j| f <= before[j]).unwrap_or(n) - 1
}

// A rule and one of its disjuncts.
#[derive(Clone, Copy)]
pub struct Owner {
    pub rule: usize,
    pub disjunct: usize,
}

// The rule and the disjunct that Skolem function `f` belongs to.
pub fn owner_of(form: &[u16], before: &[u16], f: u16) -> Owner
    requires { Held form.now × Numbered form.now before.now × (1 ≤ f) × (f ≤ functions_before form.now (places form.now)) }
    ensures { Owned form.now f result.rule result.disjunct }
{
    let j = place_of(before, rule_count(form) * 4, f);
    Owner {
        rule: j / 4,
        disjunct: j % 4,
    }
}
