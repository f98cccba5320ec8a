// Cyclic terms of the next stage: the first row whose function stands, with the row, more often on one way down than the depth allows. The
// contracts cite specs/Cyclic, and Making of rows.
ghost use Rattle.std.specs.Prelude.{◌≡◌, ℕ, ◌≤◌, ◌<◌, get_or};
ghost use Rattle.model.specs.Lists.{numbers_from};
ghost use Rattle.facts.specs.Atoms.{Sound};
ghost use Rattle.rows.specs.Making.{cyclic_row};
ghost use Rattle.stage_output.specs.Cyclic.{Arguments, ground_in, row_with, rows_with, Standable, Testable, Looked};

// A stage has at most 512 terms.
const TERM_LIMIT: usize = 512;

// One more than an argument, or what was reached before if that is more.
fn farther(reached: usize, argument: u16) -> usize
    ensures { (reached ≤ result) × (argument < result) × ((n : ℕ) → reached ≤ n → argument < n → result ≤ n) }
{
    reached.max(usize::from(argument) + 1)
}

// How many of the terms from the first on the arguments of a Skolem row are among: one more than the greatest of them.
fn reach(row: [u16; 10]) -> usize
    requires { get_or row 1 0 ≤ 8 }
    ensures { Arguments result row × ((n : ℕ) → Arguments n row → result ≤ n) }
{
    let arity = usize::from(row[1]);
    let mut reached = 0;
    for j in 0..arity {
        reached = farther(reached, row[j + 2]);
    }
    reached
}

// What a Skolem row is told cyclic by: how many of a table's terms are those of the stage that is left, and the depth.
#[derive(Clone, Copy)]
pub struct Ground {
    pub terms: usize,
    pub depth: u8,
}

// Whether a Skolem row over the terms of a stage is cyclic.
fn is_cyclic(terms: &[u16], ground: Ground, row: [u16; 10]) -> bool
    requires { Standable ground terms.now × Arguments ground.terms row }
    ensures { result ≡ cyclic_row (ground_in ground terms.now) row }
{
    let mut marks: [u8; TERM_LIMIT] = [0; TERM_LIMIT];
    // its function stands once above its arguments
    tables::raise_arguments(&row, 0, 1, &mut marks);
    // no term behind the greatest argument stands in one
    let count = reach(row);
    tables::nests_in_marked(terms, count, row[0], ground.depth, &mut marks)
}

// A cyclic row, if one was found, and the Skolem function that was tested last, 0 if none was.
#[derive(Clone, Copy)]
pub struct Tested {
    pub cyclic: Option<[u16; 10]>,
    pub function: u16,
}

// The first cyclic row: the one before, or that of a variable with a Skolem function. The function that was tested last is not tested again.
fn with_variable(
    function: u16,
    template: [u16; 10],
    terms: &[u16],
    ground: Ground,
    before: Tested,
) -> Tested
    requires { Testable ground terms.now template before }
    ensures { Looked ground terms.now template (row_with function template) before result }
{
    if before.cyclic.is_some() || function == 0 || function == before.function {
        return before;
    }
    let mut row = template;
    row[0] = function;
    Tested {
        cyclic: is_cyclic(terms, ground, row).then_some(row),
        function,
    }
}

// The first cyclic row: the one before, or the first of an atom's variables.
pub(crate) fn with_atom(
    atom: [u16; 5],
    arity: usize,
    functions: [u16; 8],
    template: [u16; 10],
    terms: &[u16],
    ground: Ground,
    before: Tested,
) -> Tested
    requires { Sound atom arity × Testable ground terms.now template before }
    ensures { Looked ground terms.now template (rows_with functions template (numbers_from atom 1 arity)) before result }
{
    let mut so_far = before;
    for p in 0..arity {
        let function = functions[usize::from(atom[p + 1])];
        so_far = with_variable(function, template, terms, ground, so_far);
    }
    so_far
}
