// Lists the triggers of small bodies over small sets of facts: a line for each, with the term number of each of the eight variables.
#![tactic(auto)]

ghost use Rattle.triggers.specs.Search.{as_body};
ghost use Rattle.test_triggers.specs.Cases.{Case};

use form::atoms::Atoms;
use new_triggers::{Extent, Walk};
use std::io;
use std::io::Print;

// Room for the index of a few facts.
const INDEX_ROOM: usize = 3120;

fn print_triggers(
    rt: &HostRuntime,
    body: Atoms,
    facts: &[u16],
    count: usize,
    terms: u16,
) -> io::Result<()>
    requires { Case (as_body body) facts.now count terms }
{
    let mut index = [0u16; INDEX_ROOM];
    fact_index::extend(facts, 0, count, &mut index);
    let plan = cursor::plan_of_all(body);
    let over = Extent {
        facts: count,
        old: 0,
        terms,
    };
    let mut walk = Walk::begin(plan, over, facts, &index);
    while let Some(trigger) = walk.next(plan, over, facts, &index) {
        let [a, b, c, d, e, f, g, h] = trigger;
        println!(rt; "{a} {b} {c} {d} {e} {f} {g} {h}")?;
    }
    Ok(())
}

// One atom with a repeated variable: P(x,x) over P(0,0), P(0,1), P(1,1), P(2,0).
fn repeated_variable(rt: &HostRuntime) -> io::Result<()> {
    println!(rt; "P(x,x)")?;
    let body = Atoms {
        rows: [[0, 0, 0, 0, 0], [0; 5], [0; 5], [0; 5]],
        arities: [2, 0, 0, 0],
        count: 1,
    };
    let facts = [0, 0, 0, 0, 0, 0, 0, 1, 0, 0, 0, 1, 1, 0, 0, 0, 2, 0, 0, 0];
    print_triggers(rt, body, &facts, 4, 3)
}

// Two atoms that share a variable: R(x,y), R(y,z) over a path with a loop at its end.
fn shared_variable(rt: &HostRuntime) -> io::Result<()> {
    println!(rt; "R(x,y), R(y,z)")?;
    let body = Atoms {
        rows: [[1, 0, 1, 0, 0], [1, 1, 2, 0, 0], [0; 5], [0; 5]],
        arities: [2, 2, 0, 0],
        count: 2,
    };
    let facts = [
        0, 5, 0, 0, 0, 1, 2, 3, 0, 0, 1, 0, 1, 0, 0, 1, 1, 2, 0, 0, 1, 3, 3, 0, 0,
    ];
    print_triggers(rt, body, &facts, 5, 6)
}

// The same with the variables 5 and 2, and a variable that the body lacks between them.
fn other_variables(rt: &HostRuntime) -> io::Result<()> {
    println!(rt; "R(v5,v2), S(v2)")?;
    let body = Atoms {
        rows: [[1, 5, 2, 0, 0], [2, 2, 0, 0, 0], [0; 5], [0; 5]],
        arities: [2, 1, 0, 0],
        count: 2,
    };
    let facts = [
        2, 1, 0, 0, 0, 1, 4, 1, 0, 0, 1, 0, 1, 0, 0, 2, 3, 0, 0, 0, 1, 2, 2, 0, 0, 1, 2, 3, 0, 0,
    ];
    print_triggers(rt, body, &facts, 6, 5)
}

// Four atoms over one predicate: every choice of two facts.
fn four_atoms(rt: &HostRuntime) -> io::Result<()> {
    println!(rt; "T(x), T(y), T(z), T(w)")?;
    let body = Atoms {
        rows: [
            [3, 0, 0, 0, 0],
            [3, 1, 0, 0, 0],
            [3, 2, 0, 0, 0],
            [3, 3, 0, 0, 0],
        ],
        arities: [1, 1, 1, 1],
        count: 4,
    };
    let facts = [3, 7, 0, 0, 0, 4, 0, 0, 0, 0, 3, 4, 0, 0, 0];
    print_triggers(rt, body, &facts, 3, 8)
}

// Four arguments, the first and the last the same variable, and an atom that refuses one of the facts.
fn four_arguments(rt: &HostRuntime) -> io::Result<()> {
    println!(rt; "V(x,y,z,x), S(y)")?;
    let body = Atoms {
        rows: [[5, 0, 1, 2, 0], [2, 1, 0, 0, 0], [0; 5], [0; 5]],
        arities: [4, 1, 0, 0],
        count: 2,
    };
    let facts = [
        5, 1, 2, 3, 1, 5, 1, 2, 3, 2, 5, 2, 4, 0, 2, 5, 2, 2, 0, 2, 2, 2, 0, 0, 0,
    ];
    print_triggers(rt, body, &facts, 5, 5)
}

// A predicate that no fact has.
fn no_trigger(rt: &HostRuntime) -> io::Result<()> {
    println!(rt; "S(x), A(x)")?;
    let body = Atoms {
        rows: [[2, 0, 0, 0, 0], [6, 0, 0, 0, 0], [0; 5], [0; 5]],
        arities: [1, 1, 0, 0],
        count: 2,
    };
    let facts = [2, 0, 0, 0, 0, 2, 1, 0, 0, 0];
    print_triggers(rt, body, &facts, 2, 2)
}

fn main(rt: HostRuntime) -> io::Result<()> {
    repeated_variable(&rt)?;
    shared_variable(&rt)?;
    other_variables(&rt)?;
    four_atoms(&rt)?;
    four_arguments(&rt)?;
    no_trigger(&rt)
}
