// A rule's atoms out of a form, by value: rows of five numbers, the predicate and its variables, zeros behind them.
// Contracts: specs/Places.
ghost use Rattle.std.specs.Prelude.{◌≡◌, ℕ, ◌<◌, length};
ghost use Rattle.model.specs.Form.{atom_row};
ghost use Rattle.form.specs.Places.{atom_place, disjunct_place, Returned, Each, Held, AtomAt, GroupAt, rules_of, rule_of, disjunct_of, atom_of, group_of, atom_rows, atom_arities, atom_predicates, head_rows, atoms_of, sizes_of, disjunct_at};

use crate::counts::{arity, body_group, disjunct_count, disjunct_group, group_count};
use crate::layout::atom_place;

// Up to four atoms: their rows, their arities and how many there are.
#[derive(Clone, Copy)]
pub struct Atoms {
    pub rows: [[u16; 5]; 4],
    pub arities: [usize; 4],
    pub count: usize,
}

// What goes with the rows of up to four disjuncts: of each the arities and the count of its atoms, and how many disjuncts there are.
#[derive(Clone, Copy)]
pub struct Sizes {
    pub arities: [[usize; 4]; 4],
    pub counts: [usize; 4],
    pub count: usize,
}

impl Sizes {
    // The atoms of disjunct `d` of a head that has these sizes.
    pub fn disjunct(&self, head: &[[[u16; 5]; 4]; 4], d: usize) -> Atoms
        requires { d < 4 }
        ensures { result ≡ disjunct_at head.now self.now d }
    {
        Atoms {
            rows: head[d],
            arities: self.arities[d],
            count: self.counts[d],
        }
    }
}

// The arity of the atom at a place.
pub fn arity_at(form: &[u16], at: usize) -> usize
    requires { AtomAt form.now at }
    ensures { result ≡ length (atom_of form.now at).variables }
{
    arity(form, usize::from(form[at]))
}

// The predicate of the atom at a place.
fn predicate_at(form: &[u16], at: usize) -> u16
    requires { AtomAt form.now at }
    ensures { result ≡ (atom_of form.now at).predicate }
{
    form[at]
}

// The row of the atom at a place.
fn row_at(form: &[u16], at: usize) -> [u16; 5]
    requires { AtomAt form.now at }
    ensures { result ≡ atom_row (atom_of form.now at) }
{
    let mut row = [0u16; 5];
    row[0] = form[at];
    for k in 0..arity_at(form, at) {
        row[k + 1] = form[at + 1 + k];
    }
    row
}

// What `of` gives at the place of each atom of the group at a place, and `none` behind them.
fn each_atom<T: Copy, F: Fn(&[u16], usize) -> T>(form: &[u16], at: usize, none: T, of: F) -> [T; 4]
    requires group { GroupAt form.now at }
    requires takes { (p : ℕ) → AtomAt form.now p → F.pre of form p }
    ensures { Each (λ k. Returned (F.post of) form.now (atom_place at k)) (length (group_of form.now at)) none result }
{
    let mut each = [none; 4];
    for k in 0..group_count(form, at) {
        each[k] = of(form, atom_place(at, k));
    }
    each
}

// What `of` gives at the place of each disjunct of rule `i`, and `none` behind them.
fn each_disjunct<T: Copy, F: Fn(&[u16], usize) -> T>(
    form: &[u16],
    i: usize,
    none: T,
    of: F,
) -> [T; 4]
    requires rule { Held form.now × (i < length (rules_of form.now)) }
    requires takes { (g : ℕ) → GroupAt form.now g → F.pre of form g }
    ensures { Each (λ d. Returned (F.post of) form.now (disjunct_place i d)) (length (rule_of form.now i).head) none result }
{
    let mut each = [none; 4];
    for d in 0..disjunct_count(form, i) {
        each[d] = of(form, disjunct_group(form, i, d));
    }
    each
}

// The rows of the atoms of the group at a place.
fn rows_at(form: &[u16], at: usize) -> [[u16; 5]; 4]
    requires { GroupAt form.now at }
    ensures { result ≡ atom_rows (group_of form.now at) }
{
    each_atom(form, at, [0; 5], row_at)
}

// The arities of the atoms of the group at a place.
fn arities_at(form: &[u16], at: usize) -> [usize; 4]
    requires { GroupAt form.now at }
    ensures { result ≡ atom_arities (group_of form.now at) }
{
    each_atom(form, at, 0, arity_at)
}

// The atoms of the group at a place.
fn atoms_at(form: &[u16], at: usize) -> Atoms
    requires { GroupAt form.now at }
    ensures { result ≡ atoms_of (group_of form.now at) }
{
    Atoms {
        rows: rows_at(form, at),
        arities: arities_at(form, at),
        count: group_count(form, at),
    }
}

// The predicates of the atoms of the group at a place.
fn predicates_at(form: &[u16], at: usize) -> [u16; 4]
    requires { GroupAt form.now at }
    ensures { result ≡ atom_predicates (group_of form.now at) }
{
    each_atom(form, at, 0, predicate_at)
}

// The body atoms of rule `i`.
pub fn body(form: &[u16], i: usize) -> Atoms
    requires { Held form.now × (i < length (rules_of form.now)) }
    ensures { result ≡ atoms_of (rule_of form.now i).body }
{
    atoms_at(form, body_group(form, i))
}

pub fn body_predicates(form: &[u16], i: usize) -> [u16; 4]
    requires { Held form.now × (i < length (rules_of form.now)) }
    ensures { result ≡ atom_predicates (rule_of form.now i).body }
{
    predicates_at(form, body_group(form, i))
}

// The atoms of disjunct `d` of rule `i`.
pub fn disjunct(form: &[u16], i: usize, d: usize) -> Atoms
    requires { Held form.now × (i < length (rules_of form.now)) × (d < length (rule_of form.now i).head) }
    ensures { result ≡ atoms_of (disjunct_of form.now i d) }
{
    atoms_at(form, disjunct_group(form, i, d))
}

// The rows of all disjuncts of rule `i`.
pub fn head(form: &[u16], i: usize) -> [[[u16; 5]; 4]; 4]
    requires { Held form.now × (i < length (rules_of form.now)) }
    ensures { result ≡ head_rows (rule_of form.now i).head }
{
    each_disjunct(form, i, [[0; 5]; 4], rows_at)
}

// What goes with them.
pub fn head_sizes(form: &[u16], i: usize) -> Sizes
    requires { Held form.now × (i < length (rules_of form.now)) }
    ensures { result ≡ sizes_of (rule_of form.now i).head }
{
    let arities = each_disjunct(form, i, [0; 4], arities_at);
    let counts = each_disjunct(form, i, 0, group_count);
    Sizes {
        arities,
        counts,
        count: disjunct_count(form, i),
    }
}
