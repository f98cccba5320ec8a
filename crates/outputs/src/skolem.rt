// What stands for the existential variables of a disjunct: their Skolem functions, and the row of their Skolem terms. The contracts cite
// specs/Skolem.
ghost use Rattle.std.specs.Prelude.{◌≡◌, ℕ, ◌<◌, ◌+◌, get_or};
ghost use Rattle.form_variables.specs.Sets.{elements};
ghost use Rattle.outputs.specs.Skolem.{function_with, template_with, number_limit};
ghost use Rattle.facts.specs.Atoms.{value_of};

// The Skolem functions of the variables, in rising order from behind `before` on; 0 for a variable that is not existential.
pub fn functions(existential: u8, before: u16) -> [u16; 8]
    requires { before < number_limit }
    ensures { (v : ℕ) → v < 8 → get_or result v 0 ≡ function_with existential before v }
{
    let mut numbers: [u16; 8] = [0; 8];
    let mut last = before;
    for v in 0u8..8 {
        if form_variables::contains(existential, v) {
            last += 1;
            numbers[usize::from(v)] = last;
        }
    }
    numbers
}

// The row of the Skolem terms over these numbers, but for their function.
pub fn template(frontier: u8, numbers: [u16; 8]) -> [u16; 10]
    ensures { result ≡ template_with (elements frontier) (value_of numbers) }
{
    let mut row: [u16; 10] = [0; 10];
    row[1] = form_variables::set_size(frontier) as u16;
    let mut place = 2;
    for v in 0u8..8 {
        if form_variables::contains(frontier, v) {
            row[place] = numbers[usize::from(v)];
            place += 1;
        }
    }
    row
}
