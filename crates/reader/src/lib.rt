// The reader of rule sets: from bytes to a form (document 01: book bytes, book form). The parsers of model's `Format`, one function each: each
// answers the step of the definition's answer, and writes what it read into a row of zeros that its caller lends. The contracts cite
// parsing's Step, specs/Parts and specs/Transfer.
#![tactic(auto)]

ghost use Rattle.std.specs.Prelude.{◌≡◌, List, suc, ◌*◌, ◌≤◌, ◌<◌, length};
ghost use Rattle.model.specs.Lists.{padded, collect};
ghost use Rattle.model.specs.Rules.{Atom};
ghost use Rattle.model.specs.Format.{many, signed};
ghost use Rattle.model.specs.Limits.{fact_width, rule_limit, predicate_limit};
ghost use Rattle.model.specs.Form.{group_width, rule_width, rules_length, form_length, atom_row, group, rule_row, encoded};
ghost use Rattle.model.specs.Format as format;
ghost use Rattle.parsing.specs.Step.{none, parsed_rules, zeros, Filled, Arities, atoms_set};
ghost use Rattle.parsing.specs.Heads.{fault as faulty};
ghost use Rattle.reader.specs.Parts.{grown_by, grown_by_atom, rules_row, after_arities, after_count};
ghost use Rattle.reader.specs.Transfer.{Reads, ReadsAfresh};

use form::layout::{ARITIES, ATOM_WIDTH, GROUP_WIDTH, LENGTH, RULE_WIDTH, VERSION};
use parsing::faults::Disjuncts;
use parsing::{Parsed, Step, byte, most_predicates, number, variable};
use refusal::{Refusal, Refused};

// The place of a rule's disjuncts in its row.
const HEAD_PLACE: usize = 1 + GROUP_WIDTH;

// The last version there is, and how many predicates it has at most.
const LAST_VERSION: u8 = 2;

const PREDICATE_LIMIT: usize = 1024;

// What `read` and `write` answer: how many bytes were read or written, or a refusal and its place.
pub type Transfer = Result<usize, Refused>;

// n variables into the front of a row of zeros; the value is the set that was handed over, grown by them.
fn variables(bytes: &[u8], n: usize, i: usize, kept: u8, row: &mut [u16]) -> Step<u8>
    requires { (n ≤ length row.old) × (row.old ≡ zeros (length row.old)) }
    ensures { Filled (grown_by kept) (padded (length row.old)) (many n (format.variable bytes.now) i) result row.new }
{
    let mut set = kept;
    let mut at = i;
    for k in 0..n {
        let v = variable(bytes, at)?;
        row[k] = u16::from(v.value);
        set |= 1 << v.value;
        at = v.next;
    }
    Ok(Parsed {
        value: set,
        next: at,
    })
}

// An atom into a row of zeros; the value is the set that was handed over, grown by its variables.
fn atom(bytes: &[u8], version: u8, arities: &[u16], i: usize, kept: u8, row: &mut [u16]) -> Step<u8>
    requires arities { Arities arities.now }
    requires row_value { row.old ≡ zeros fact_width }
    ensures { Filled (grown_by_atom kept) atom_row (format.atom bytes.now (signed version arities.now) i) result row.new }
{
    let p = number(
        bytes,
        version,
        0,
        (arities.len() - 1) as u16,
        Refusal::Symbol,
        i,
    )?;
    row[0] = p.value;
    let n = usize::from(arities[usize::from(p.value)]);
    variables(bytes, n, p.next, kept, &mut row[1..])
}

// n atoms into the front of a row of zeros; the value is the set of their variables, one running value that each atom grows (`Afresh`).
fn many_atoms(
    bytes: &[u8],
    version: u8,
    arities: &[u16],
    n: usize,
    i: usize,
    rows: &mut [u16],
) -> Step<u8>
    requires arities { Arities arities.now }
    requires n_bound { (n ≤ 4) × (rows.old ≡ zeros (4 * fact_width)) }
    ensures { Filled atoms_set (λ as'. padded (4 * fact_width) (collect atom_row as')) (many n (format.atom bytes.now (signed version arities.now)) i) result rows.new }
{
    let mut set: u8 = 0;
    let mut at = i;
    for k in 0..n {
        let from = k * ATOM_WIDTH;
        let grown = atom(
            bytes,
            version,
            arities,
            at,
            set,
            &mut rows[from..from + ATOM_WIDTH],
        )?;
        set = grown.value;
        at = grown.next;
    }
    Ok(Parsed {
        value: set,
        next: at,
    })
}

// A count of one to four, and so many atoms, into a row of zeros; the value is the set of their variables.
fn atoms(bytes: &[u8], version: u8, arities: &[u16], i: usize, row: &mut [u16]) -> Step<u8>
    requires arities { Arities arities.now }
    requires row_value { row.old ≡ zeros group_width }
    ensures { Filled atoms_set group (format.atoms bytes.now (signed version arities.now) i) result row.new }
{
    let n = byte(bytes, 1, 4, Refusal::Count, i)?;
    row[0] = u16::from(n.value);
    many_atoms(
        bytes,
        version,
        arities,
        usize::from(n.value),
        n.next,
        &mut row[1..],
    )
}

// n disjuncts into the front of a row of zeros; the value is the fault of the rule that has them, by the set of its body's variables.
fn many_disjuncts(
    bytes: &[u8],
    version: u8,
    arities: &[u16],
    body: u8,
    n: usize,
    i: usize,
    rows: &mut [u16],
) -> Step<Option<Refusal>>
    requires arities { Arities arities.now }
    requires n_bound { (n ≤ 4) × (rows.old ≡ zeros (4 * group_width)) }
    ensures { (b : List Atom) → body ≡ atoms_set b → Filled (λ ds. faulty (record { body = b; head = ds })) (λ ds. padded (4 * group_width) (collect group ds)) (many n (format.atoms bytes.now (signed version arities.now)) i) result rows.new }
{
    let mut heads = Disjuncts::none();
    let mut at = i;
    for k in 0..n {
        let from = k * GROUP_WIDTH;
        let set = atoms(
            bytes,
            version,
            arities,
            at,
            &mut rows[from..from + GROUP_WIDTH],
        )?;
        heads = heads.with(set.value, body);
        at = set.next;
    }
    Ok(Parsed {
        value: heads.refusal(),
        next: at,
    })
}

// A rule into a row of zeros, `Repeated` and then `Detached` tested after its last byte.
fn rule(bytes: &[u8], version: u8, arities: &[u16], i: usize, row: &mut [u16]) -> Step<()>
    requires arities { Arities arities.now }
    requires row_value { row.old ≡ zeros rule_width }
    ensures { Filled none rule_row (format.rule bytes.now (signed version arities.now) i) result row.new }
{
    let body = atoms(bytes, version, arities, i, &mut row[1..HEAD_PLACE])?;
    let n = byte(bytes, 1, 4, Refusal::Count, body.next)?;
    row[0] = u16::from(n.value);
    let head = many_disjuncts(
        bytes,
        version,
        arities,
        body.value,
        usize::from(n.value),
        n.next,
        &mut row[HEAD_PLACE..],
    )?;
    match head.value {
        Some(refusal) => Err(Refused { refusal, place: i }),
        None => Ok(Parsed {
            value: (),
            next: head.next,
        }),
    }
}

// n rules into the front of a row of zeros.
fn many_rules(
    bytes: &[u8],
    version: u8,
    arities: &[u16],
    n: usize,
    i: usize,
    rows: &mut [u16],
) -> Step<()>
    requires arities { Arities arities.now }
    requires n_le_rule_limit { (n ≤ rule_limit) × (rows.old ≡ zeros rules_length) }
    ensures { Filled none (λ rs. padded rules_length (collect rule_row rs)) (many n (format.rule bytes.now (signed version arities.now)) i) result rows.new }
{
    let mut at = i;
    for k in 0..n {
        let from = k * RULE_WIDTH;
        at = rule(
            bytes,
            version,
            arities,
            at,
            &mut rows[from..from + RULE_WIDTH],
        )?
        .next;
    }
    Ok(Parsed {
        value: (),
        next: at,
    })
}

// A count of at most 64, and so many rules, into a row of zeros.
fn rules(bytes: &[u8], version: u8, arities: &[u16], i: usize, row: &mut [u16]) -> Step<()>
    requires arities { Arities arities.now }
    requires row_value { row.old ≡ zeros (suc rules_length) }
    ensures { Filled none rules_row (parsed_rules bytes.now (signed version arities.now) i) result row.new }
{
    let n = byte(bytes, 0, 64, Refusal::Rules, i)?;
    row[0] = u16::from(n.value);
    many_rules(
        bytes,
        version,
        arities,
        usize::from(n.value),
        n.next,
        &mut row[1..],
    )
}

// n arities into the front of a row of zeros.
fn many_arities(bytes: &[u8], n: usize, i: usize, row: &mut [u16]) -> Step<()>
    requires { (n ≤ length row.old) × (row.old ≡ zeros (length row.old)) }
    ensures { Filled none (padded (length row.old)) (many n (format.byte bytes.now 1 4 4) i) result row.new }
{
    let mut at = i;
    for k in 0..n {
        let arity = byte(bytes, 1, 4, Refusal::Predicates, at)?;
        row[k] = u16::from(arity.value);
        at = arity.next;
    }
    Ok(Parsed {
        value: (),
        next: at,
    })
}

// What follows the arities, with them and the version, into a form of zeros.
fn after_arities(bytes: &[u8], version: u8, arities: &[u16], i: usize, form: &mut [u16]) -> Step<()>
    requires arities { Arities arities.now }
    requires form_value { form.old ≡ zeros form_length }
    ensures { Filled none encoded (after_arities bytes.now version arities.now i) result form.new }
{
    form[0] = arities.len() as u16;
    form[VERSION] = u16::from(version);
    form[ARITIES..ARITIES + arities.len()].copy_from_slice(arities);
    let read = rules(bytes, version, arities, i, &mut form[1..ARITIES])?;
    if read.next == bytes.len() {
        return Ok(read);
    }
    Err(Refused {
        refusal: Refusal::End,
        place: read.next,
    })
}

// What follows the count of predicates, into a form of zeros.
fn after_count(bytes: &[u8], version: u8, n: usize, i: usize, form: &mut [u16]) -> Step<()>
    requires { (1 ≤ n) × (n ≤ predicate_limit) × (form.old ≡ zeros form_length) }
    ensures { Filled none encoded (after_count bytes.now version n i) result form.new }
{
    let mut arities = [0u16; PREDICATE_LIMIT];
    let listed = many_arities(bytes, n, i, &mut arities)?;
    after_arities(bytes, version, &arities[..n], listed.next, form)
}

// What follows the length, into a form of zeros: every refusal from `Version` to `End` is of this part.
fn rule_set(bytes: &[u8], form: &mut [u16]) -> Step<()>
    requires { form.old ≡ zeros form_length }
    ensures { Filled none encoded (format.rule_set bytes.now) result form.new }
{
    let version = byte(bytes, 1, LAST_VERSION, Refusal::Version, 4)?;
    let most = most_predicates(version.value);
    let n = number(
        bytes,
        version.value,
        1,
        most,
        Refusal::Predicates,
        version.next,
    )?;
    after_count(bytes, version.value, usize::from(n.value), n.next, form)
}

// The number that the first four bytes spell.
fn stated(bytes: &[u8]) -> usize
    requires { 4 ≤ length bytes.now }
    ensures { (result ≡ format.stated bytes.now) × (result < 4294967296) }
{
    u32::from_be_bytes([bytes[0], bytes[1], bytes[2], bytes[3]]) as usize
}

// Whether the count of bytes behind the length is the stated one.
pub fn is_whole(bytes: &[u8]) -> bool
    ensures { result ≡ format.whole bytes.now }
{
    bytes.len() >= 4 && stated(bytes) + 4 == bytes.len()
}

// Bytes into a form of zeros that no caller sees after a refusal: then it may hold anything. There is room for it, so no
// refusal is `ShortList`.
pub fn read_afresh(bytes: &[u8], form: &mut [u16]) -> Transfer
    requires { form.old ≡ zeros form_length }
    ensures { ReadsAfresh bytes.now result form.new }
{
    if !is_whole(bytes) {
        return Err(Refused {
            refusal: Refusal::Length,
            place: 0,
        });
    }
    Ok(rule_set(bytes, form)?.next)
}

// Bytes into a form (document 01: book form), which stays as it was on a refusal. A form too short is refused with `ShortList`.
pub fn read(bytes: &[u8], form: &mut [u16]) -> Transfer
    ensures { Reads bytes.now form.old result form.new }
{
    if form.len() < LENGTH {
        return Err(Refused {
            refusal: Refusal::ShortList,
            place: 0,
        });
    }
    let mut local = [0u16; LENGTH];
    let end = read_afresh(bytes, &mut local)?;
    form[..LENGTH].copy_from_slice(&local);
    Ok(end)
}
