// The layout of a form: at which place what stands, which this crate alone knows. Contracts: specs/Places.
ghost use Rattle.std.specs.Prelude.{◌≡◌, ◌≤◌, ◌<◌};
ghost use Rattle.model.specs.Limits.{predicate_limit, rule_limit};
ghost use Rattle.model.specs.Form.{form_length};
ghost use Rattle.form.specs.Places.{rule_place, group_place, body_place, disjunct_place, atom_place, arity_place};

// How many numbers a form has.
pub const LENGTH: usize = 7812;

// The places of the two counts.
pub const PREDICATE_COUNT: usize = 0;

pub const RULE_COUNT: usize = 1;

// How many numbers a rule, a group (a body or a disjunct) and an atom have.
pub const RULE_WIDTH: usize = 106;

pub const GROUP_WIDTH: usize = 21;

pub const ATOM_WIDTH: usize = 5;

const RULES: usize = 2;

// The places of the arities, and behind them of the version.
pub const ARITIES: usize = 6786;

pub const VERSION: usize = 7810;

// The place of rule `i`, which is that of its count of disjuncts; that of the rule behind the last is the end of the rules.
pub fn rule_place(i: usize) -> usize
    requires { i ≤ rule_limit }
    ensures { result ≡ rule_place i }
{
    RULES + i * RULE_WIDTH
}

// The place of a group of the rule at a place, which is that of the group's count of atoms: the body is group 0, disjunct d is group d + 1.
pub fn group_place(rule: usize, g: usize) -> usize
    requires { (rule ≤ form_length) × (g ≤ 5) }
    ensures { result ≡ group_place rule g }
{
    rule + 1 + g * GROUP_WIDTH
}

// The place of the body of rule `i`.
pub fn body_place(i: usize) -> usize
    requires { i < rule_limit }
    ensures { result ≡ body_place i }
{
    group_place(rule_place(i), 0)
}

// The place of disjunct `d` of rule `i`.
pub fn disjunct_place(i: usize, d: usize) -> usize
    requires { (i < rule_limit) × (d < 4) }
    ensures { result ≡ disjunct_place i d }
{
    group_place(rule_place(i), d + 1)
}

// The place of an atom of the group at a place, which is that of its predicate; its variables stand behind.
pub fn atom_place(group: usize, k: usize) -> usize
    requires { (group ≤ form_length) × (k ≤ 4) }
    ensures { result ≡ atom_place group k }
{
    group + 1 + k * ATOM_WIDTH
}

// The place of the arity of predicate `p`.
pub fn arity_place(p: usize) -> usize
    requires { p ≤ predicate_limit }
    ensures { result ≡ arity_place p }
{
    ARITIES + p
}
