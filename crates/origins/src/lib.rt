// The origins of terms, 01's made-by facts: the body and the disjunct that must have made a Skolem term, entered. The contracts cite specs/Origin
// and specs/Origins of crate rows.
#![tactic(auto)]

ghost use Rattle.std.specs.Prelude.{◌≡◌, ◌++◌, ℕ, suc, ◌*◌, ◌≤◌, ◌<◌, length, get_or, replicate};
ghost use Rattle.model.specs.Lists.{row};
ghost use Rattle.rows.specs.Copies.{arguments_in, constant_row};
ghost use Rattle.rows.specs.Origins.{others, enter_origin};
ghost use Rattle.form_variables.specs.Sets.{set_of};
ghost use Rattle.form.specs.Places.{RuleAt, rule_of};
ghost use Rattle.form_functions.specs.Functions.{numbered_of};
ghost use Rattle.tables.specs.Rows.{rows};
ghost use Rattle.facts.specs.Room.{TakesTerms, HoldsTerms};
ghost use Rattle.outputs.specs.Skolem.{number_limit};
ghost use Rattle.outputs.specs.Naming.{held, Takes, Holds};
ghost use Rattle.disjuncts.specs.Disjunct.{DisjunctAt};
ghost use Rattle.origins.specs.Origin.{origin_number, origin_step, disjuncts_in, origins_in, TermAt, TermsOf};

// The variables of rule `i`'s body outside its frontier.
fn others_set(form: &[u16], i: usize) -> u8
    requires { RuleAt form.now i }
    ensures { result ≡ set_of (others (rule_of form.now i)) }
{
    form_variables::body_set(form, i) & !form_variables::frontier_set(form, i)
}

// Argument `k` of term `j`, 0 if it has fewer.
fn origin_argument(table: &[u16], j: usize, k: usize) -> u16
    requires { (suc j * 10 ≤ length table.now) × (k < 8) }
    ensures { result ≡ get_or (arguments_in (row 10 j table.now)) k 0 }
{
    if k < usize::from(table[j * 10 + 1]) {
        return table[j * 10 + 2 + k];
    }
    0
}

// What stands for variable `v` in the origin of term `j`: an argument, or a constant of its own from number `base` on.
fn origin_number(frontier: u8, others: u8, v: u8, table: &[u16], j: usize, base: u16) -> u16
    requires { (v < 8) × (suc j * 10 ≤ length table.now) × (base < number_limit) }
    ensures { result ≡ origin_number frontier others (arguments_in (row 10 j table.now)) base v }
{
    if form_variables::contains(frontier, v) {
        return origin_argument(table, j, form_variables::rank(frontier, v));
    }
    if form_variables::contains(others, v) {
        return base + form_variables::rank(others, v) as u16;
    }
    0
}

// What stands for the variables.
fn origin_numbers(frontier: u8, others: u8, table: &[u16], j: usize, base: u16) -> [u16; 8]
    requires { (suc j * 10 ≤ length table.now) × (base < number_limit) }
    ensures { (v : ℕ) → v < 8 → get_or result v 0 ≡ origin_number frontier others (arguments_in (row 10 j table.now)) base v }
{
    let mut names: [u16; 8] = [0; 8];
    for v in 0u8..8 {
        names[usize::from(v)] = origin_number(frontier, others, v, table, j, base);
    }
    names
}

// Writes `k` rows without a Skolem function behind the first `n`.
fn add_constants(table: &mut [u16], n: usize, k: usize) -> usize
    requires { TakesTerms table.old n (rows 10 n table.old ++ replicate k constant_row) }
    ensures { HoldsTerms table.new result (rows 10 n table.old ++ replicate k constant_row) }
{
    let row: [u16; 10] = [0; 10];
    let mut m = n;
    for i in 0..k {
        terms::append_term(table, m, row);
        m += 1;
    }
    m
}

// Enters the origin of term `j`, which disjunct `d` of rule `i` made: the constants of its own, the body and the disjunct.
fn enter_origin(
    form: &[u16],
    before: &[u16],
    i: usize,
    d: usize,
    j: usize,
    table: &mut [u16],
    n: usize,
    facts: &mut [u16],
    m: usize,
    limit: usize,
) -> outputs::Counts
    requires { DisjunctAt form.now before.now i d × (j < n) × (n < number_limit) × Takes table.old n facts.old m limit (enter_origin (numbered_of form.now i d) (arguments_in (row 10 j table.old)) (held table.old n facts.old m)) }
    ensures { Holds table.new result.terms facts.new result.facts limit (enter_origin (numbered_of form.now i d) (arguments_in (row 10 j table.old)) (held table.old n facts.old m)) }
{
    let others = others_set(form, i);
    let names = origin_numbers(
        form_variables::frontier_set(form, i),
        others,
        table,
        j,
        n as u16,
    );
    let added = add_constants(table, n, form_variables::set_size(others));
    let atoms = form::atoms::body(form, i);
    let entered = facts::enter_facts(&atoms, &names, facts, m, limit);
    disjuncts::enter_disjunct(
        form, before, i, d, names, table, added, facts, entered, limit,
    )
}

// Enters the origin of term `j`, if it is a Skolem term.
fn origin_of(
    form: &[u16],
    before: &[u16],
    j: usize,
    table: &mut [u16],
    n: usize,
    facts: &mut [u16],
    m: usize,
    limit: usize,
) -> outputs::Counts
    requires { TermAt form.now before.now table.old j n × Takes table.old n facts.old m limit (origin_step (disjuncts_in form.now) (row 10 j table.old) (held table.old n facts.old m)) }
    ensures { Holds table.new result.terms facts.new result.facts limit (origin_step (disjuncts_in form.now) (row 10 j table.old) (held table.old n facts.old m)) }
{
    let f = table[j * 10];
    if f == 0 {
        return outputs::Counts { terms: n, facts: m };
    }
    let owner = form_functions::owner_of(form, before, f);
    enter_origin(
        form,
        before,
        owner.rule,
        owner.disjunct,
        j,
        table,
        n,
        facts,
        m,
        limit,
    )
}

// Enters the origins of the first `n` terms that are Skolem terms.
pub fn enter_origins(
    form: &[u16],
    before: &[u16],
    table: &mut [u16],
    n: usize,
    facts: &mut [u16],
    m: usize,
    limit: usize,
) -> outputs::Counts
    requires { TermsOf form.now before.now table.old n × (length (origins_in form.now table.old n facts.old m).terms < number_limit) × Takes table.old n facts.old m limit (origins_in form.now table.old n facts.old m) }
    ensures { Holds table.new result.terms facts.new result.facts limit (origins_in form.now table.old n facts.old m) }
{
    let mut a = n;
    let mut b = m;
    for j in 0..n {
        let entered = origin_of(form, before, j, table, a, facts, b, limit);
        a = entered.terms;
        b = entered.facts;
    }
    outputs::Counts { terms: a, facts: b }
}
