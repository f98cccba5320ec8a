// The writer: the bytes of the rule set that a form holds, tested as the reader tests them, once over the form. Each function writes what a
// parser of model's `Format` reads, and answers as that parser does (`Writes` of specs/Writes.antt).
#![tactic(auto)]

ghost use Rattle.std.specs.Prelude.{◌≡◌, [], ◌∷◌, ◌++◌, ℕ, suc, ◌+◌, ◌-◌, ◌*◌, ◌≤◌, ◌<◌, length, get_or, drop, IfOk};
ghost use Rattle.model.specs.Lists.{numbers_from, collect};
ghost use Rattle.model.specs.Rules.{wide, most_predicates};
ghost use Rattle.model.specs.Format.{many, number_bytes, atom_bytes, atoms_bytes, rule_bytes, big_endian, content};
ghost use Rattle.model.specs.Format as format;
ghost use Rattle.model.specs.Limits.{predicate_limit, rule_limit, fact_width, bytes_limit};
ghost use Rattle.model.specs.Form.{group_width, rule_width, spaced, atom_at, group_at, rule_at, decoded};
ghost use Rattle.refusal.specs.Numbers.{number_of};
ghost use Rattle.form_variables.specs.Sets.{set_of};
ghost use Rattle.parsing.specs.Step.{none, atom_set, atoms_set, parsed_rules};
ghost use Rattle.writer.specs.Contract.{WritesBytes};
ghost use Rattle.writer.specs.Writes.{value, Fits, Declared, Writes, WritesHead, arities_in, signature_in, parsed_content, after_version, rules_bytes, rules_at, declared_bytes, atom_room, group_room, rule_room, rules_room, declared_room, content_room};

use form::layout::{
    PREDICATE_COUNT, RULE_COUNT, VERSION, arity_place, atom_place, group_place, rule_place,
};
use parsing::faults::Disjuncts;
use parsing::{Parsed, Step, is_wide, most_predicates};
use reader::Transfer;
use refusal::{Refusal, Refused};

// Room for the bytes of the longest rule set (model's `bytes_limit`).
const BYTES_ROOM: usize = 9096;

// How many of them state the length.
const LENGTH_BYTES: usize = 4;

// The last version there is.
const LAST_VERSION: u8 = 2;

// A place of the form; one that a short form lacks reads as 0.
fn number(form: &[u16], at: usize) -> u16
    ensures { result ≡ get_or form.now at 0 }
{
    if at < form.len() {
        return form[at];
    }
    0
}

// A number from low to high, as the byte at i.
fn put(v: u16, low: u8, high: u8, refusal: Refusal, i: usize, out: &mut [u8]) -> Step<u8>
    requires { i < length out.old }
    ensures written { Writes value (λ bs. format.byte bs low high (number_of refusal) i) i (v ∷ []) out.old result out.new }
    ensures taken { IfOk result (λ p. (p.value ≡ v) × (v ≤ high) × (p.next ≡ i + 1)) }
{
    if v < u16::from(low) || u16::from(high) < v {
        return Err(Refused { refusal, place: i });
    }
    let value = v as u8;
    out[i] = value;
    Ok(Parsed { value, next: i + 1 })
}

// A number from low to high at i, as long as the version has it, big-endian: a count of predicates, or a predicate. Nothing is kept of it.
fn put_number(
    v: u16,
    version: u8,
    low: u16,
    high: u16,
    refusal: Refusal,
    i: usize,
    out: &mut [u8],
) -> Step<()>
    requires { (high ≤ most_predicates version) × (i + 2 ≤ length out.old) }
    ensures written { Writes none (λ bs. format.number (wide version) bs low high (number_of refusal) i) i (number_bytes (wide version) v) out.old result out.new }
    ensures taken { IfOk result (λ p. (low ≤ v) × (v ≤ high) × (p.next ≤ i + 2)) }
{
    if v < low || high < v {
        return Err(Refused { refusal, place: i });
    }
    if is_wide(version) {
        out[i..i + 2].copy_from_slice(&v.to_be_bytes());
        return Ok(Parsed {
            value: (),
            next: i + 2,
        });
    }
    out[i] = v as u8;
    Ok(Parsed {
        value: (),
        next: i + 1,
    })
}

// n variables; the value is their set.
fn put_variables(form: &[u16], n: usize, at: usize, i: usize, out: &mut [u8]) -> Step<u8>
    requires { Fits at n i n out.old }
    ensures written { Writes set_of (λ bs. many n (format.variable bs) i) i (numbers_from form.now at n) out.old result out.new }
    ensures end { IfOk result (λ p. p.next ≤ i + n) }
{
    let mut set: u8 = 0;
    let mut end = i;
    for k in 0..n {
        let variable = put(number(form, at + k), 0, 7, Refusal::Symbol, end, out)?;
        set |= 1 << variable.value;
        end = variable.next;
    }
    Ok(Parsed {
        value: set,
        next: end,
    })
}

// An atom; the value is the set of its variables. n is the count of predicates.
fn put_atom(form: &[u16], version: u8, n: usize, at: usize, i: usize, out: &mut [u8]) -> Step<u8>
    requires declared { Declared form.now version n }
    requires fits { Fits at fact_width i atom_room out.old }
    ensures written { Writes atom_set (λ bs. format.atom bs (signature_in form.now version n) i) i (atom_bytes (wide version) (atom_at form.now (arities_in form.now n) at)) out.old result out.new }
    ensures end { IfOk result (λ p. p.next ≤ i + atom_room) }
{
    let p = number(form, at);
    let head = put_number(p, version, 0, (n - 1) as u16, Refusal::Symbol, i, out)?;
    let arity = number(form, arity_place(usize::from(p)));
    put_variables(form, usize::from(arity), at + 1, head.next, out)
}

// count atoms; the value is the set of their variables.
fn put_many_atoms(
    form: &[u16],
    version: u8,
    n: usize,
    count: usize,
    group: usize,
    i: usize,
    out: &mut [u8],
) -> Step<u8>
    requires declared { Declared form.now version n }
    requires fits { Fits (group + 1) (4 * fact_width) i (4 * atom_room) out.old × (count ≤ 4) }
    ensures written { Writes atoms_set (λ bs. many count (format.atom bs (signature_in form.now version n)) i) i (collect (atom_bytes (wide version)) (spaced (atom_at form.now (arities_in form.now n)) fact_width count (group + 1))) out.old result out.new }
    ensures end { IfOk result (λ p. p.next ≤ i + 4 * atom_room) }
{
    let mut set: u8 = 0;
    let mut end = i;
    for k in 0..count {
        let atom = put_atom(form, version, n, atom_place(group, k), end, out)?;
        set |= atom.value;
        end = atom.next;
    }
    Ok(Parsed {
        value: set,
        next: end,
    })
}

// A count of one to four, and so many atoms; the value is the set of their variables.
fn put_atoms(
    form: &[u16],
    version: u8,
    n: usize,
    group: usize,
    i: usize,
    out: &mut [u8],
) -> Step<u8>
    requires declared { Declared form.now version n }
    requires fits { Fits group group_width i group_room out.old }
    ensures written { Writes atoms_set (λ bs. format.atoms bs (signature_in form.now version n) i) i (atoms_bytes (wide version) (group_at form.now (arities_in form.now n) group)) out.old result out.new }
    ensures end { IfOk result (λ p. p.next ≤ i + group_room) }
{
    let count = put(number(form, group), 1, 4, Refusal::Count, i, out)?;
    put_many_atoms(
        form,
        version,
        n,
        usize::from(count.value),
        group,
        count.next,
        out,
    )
}

// count disjuncts; the value is the fault of the rule that has them, by the set of its body's variables.
fn put_many_disjuncts(
    form: &[u16],
    version: u8,
    n: usize,
    body: u8,
    count: usize,
    rule: usize,
    i: usize,
    out: &mut [u8],
) -> Step<Option<Refusal>>
    requires declared { Declared form.now version n }
    requires fits { Fits (rule + 22) (4 * group_width) i (4 * group_room) out.old × (count ≤ 4) }
    ensures written { WritesHead form.now version n body count rule i out.old result out.new }
    ensures end { IfOk result (λ p. p.next ≤ i + 4 * group_room) }
{
    let mut heads = Disjuncts::none();
    let mut end = i;
    for k in 0..count {
        let disjunct = put_atoms(form, version, n, group_place(rule, k + 1), end, out)?;
        heads = heads.with(disjunct.value, body);
        end = disjunct.next;
    }
    Ok(Parsed {
        value: heads.refusal(),
        next: end,
    })
}

// A rule, `Repeated` and then `Detached` tested after its last byte.
fn put_rule(form: &[u16], version: u8, n: usize, rule: usize, i: usize, out: &mut [u8]) -> Step<()>
    requires declared { Declared form.now version n }
    requires fits { Fits rule rule_width i rule_room out.old }
    ensures written { Writes none (λ bs. format.rule bs (signature_in form.now version n) i) i (rule_bytes (wide version) (rule_at form.now (arities_in form.now n) rule)) out.old result out.new }
    ensures end { IfOk result (λ p. p.next ≤ i + rule_room) }
{
    let body = put_atoms(form, version, n, group_place(rule, 0), i, out)?;
    let count = put(number(form, rule), 1, 4, Refusal::Count, body.next, out)?;
    let head = put_many_disjuncts(
        form,
        version,
        n,
        body.value,
        usize::from(count.value),
        rule,
        count.next,
        out,
    )?;
    match head.value {
        Some(refusal) => Err(Refused { refusal, place: i }),
        None => Ok(Parsed {
            value: (),
            next: head.next,
        }),
    }
}

// count rules.
fn put_many_rules(
    form: &[u16],
    version: u8,
    n: usize,
    count: usize,
    i: usize,
    out: &mut [u8],
) -> Step<()>
    requires declared { Declared form.now version n }
    requires rules_room_in_bounds { (i + rules_room ≤ length out.old) × (count ≤ rule_limit) }
    ensures written { Writes none (λ bs. many count (format.rule bs (signature_in form.now version n)) i) i (collect (rule_bytes (wide version)) (spaced (rule_at form.now (arities_in form.now n)) rule_width count 2)) out.old result out.new }
    ensures end { IfOk result (λ p. p.next ≤ i + rules_room) }
{
    let mut end = i;
    for k in 0..count {
        end = put_rule(form, version, n, rule_place(k), end, out)?.next;
    }
    Ok(Parsed {
        value: (),
        next: end,
    })
}

// n arities; where all are good, each is at most 4.
fn put_arities(form: &[u16], n: usize, i: usize, out: &mut [u8]) -> Step<()>
    requires { (i + n ≤ length out.old) × (n ≤ predicate_limit) }
    ensures written { Writes none (λ bs. many n (format.byte bs 1 4 4) i) i (arities_in form.now n) out.old result out.new }
    ensures taken { IfOk result (λ p. (p.next ≤ i + n) × ((q : ℕ) → get_or (arities_in form.now n) q 0 ≤ 4)) }
{
    let mut end = i;
    for k in 0..n {
        let arity = number(form, arity_place(k));
        end = put(arity, 1, 4, Refusal::Predicates, end, out)?.next;
    }
    Ok(Parsed {
        value: (),
        next: end,
    })
}

// A count of at most 64, and so many rules.
fn put_rules(form: &[u16], version: u8, n: usize, i: usize, out: &mut [u8]) -> Step<()>
    requires declared { Declared form.now version n }
    requires rules_room_in_bounds { i + suc rules_room ≤ length out.old }
    ensures written { Writes none (λ bs. parsed_rules bs (signature_in form.now version n) i) i (rules_bytes (wide version) (rules_at form.now (arities_in form.now n))) out.old result out.new }
    ensures end { IfOk result (λ p. p.next ≤ i + suc rules_room) }
{
    let count = put(number(form, RULE_COUNT), 0, 64, Refusal::Rules, i, out)?;
    put_many_rules(form, version, n, usize::from(count.value), count.next, out)
}

// What follows the version: the count of predicates, their arities, and the rules.
fn put_declared(form: &[u16], version: u8, i: usize, out: &mut [u8]) -> Step<()>
    requires { i + declared_room ≤ length out.old }
    ensures written { Writes none (λ bs. after_version bs version i) i (declared_bytes form.now version) out.old result out.new }
    ensures end { IfOk result (λ p. p.next ≤ i + declared_room) }
{
    let count = number(form, PREDICATE_COUNT);
    let most = most_predicates(version);
    let first = put_number(count, version, 1, most, Refusal::Predicates, i, out)?;
    let n = usize::from(count);
    let arities = put_arities(form, n, first.next, out)?;
    put_rules(form, version, n, arities.next, out)
}

// What follows the length.
fn put_content(form: &[u16], out: &mut [u8]) -> Step<()>
    requires { length out.old ≡ bytes_limit }
    ensures written { Writes none parsed_content 4 (content (decoded form.now)) out.old result out.new }
    ensures end { IfOk result (λ p. p.next ≤ 4 + content_room) }
{
    let stated = number(form, VERSION);
    let version = put(stated, 1, LAST_VERSION, Refusal::Version, LENGTH_BYTES, out)?;
    put_declared(form, version.value, version.next, out)
}

// The length of what follows it, big-endian, as the first four bytes.
fn put_length(end: usize, out: &mut [u8])
    requires { (4 ≤ end) × (end ≤ bytes_limit) × (4 ≤ length out.old) }
    ensures { out.new ≡ big_endian (end - 4) ++ drop 4 out.old }
{
    let length = (end - LENGTH_BYTES) as u32;
    out[..LENGTH_BYTES].copy_from_slice(&length.to_be_bytes());
}

// The bytes of the rule set that a form holds (document 01: book form); on a refusal the list stays as it was. A list shorter than these
// bytes is refused with `ShortList`.
pub fn write(form: &[u16], out: &mut [u8]) -> Transfer
    ensures { WritesBytes form.now out.old result out.new }
{
    let mut local = [0u8; BYTES_ROOM];
    let end = put_content(form, &mut local)?.next;
    if out.len() < end {
        return Err(Refused {
            refusal: Refusal::ShortList,
            place: 0,
        });
    }
    put_length(end, &mut local);
    out[..end].copy_from_slice(&local[..end]);
    Ok(end)
}
