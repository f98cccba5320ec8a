// The columns of a table, as bytes. The contracts cite `Columns` of columns_model.
ghost use Rattle.std.specs.Prelude.{◌≡◌};
ghost use Rattle.std.proofs.lemmas.List.Edits.{sets};
ghost use Rattle.model.specs.Lists.{collect};
ghost use Rattle.columns_model.specs.Differences.{differences, two_bytes};
ghost use Rattle.columns_model.specs.Columns.{column, laid};
ghost use Rattle.columns.specs.Placed.{Has, HasColumn};

use crate::numbers::put_number;
use crate::shape::Shape;

// Column j, each number as its difference from the one above it. A number is read anew as the one above the next: a local in its place makes
// slower code (docs/BENCHMARKS.md, "Stores"). The two places go on by an addition each, as they were measured there.
fn put_column(table: &[u16], shape: Shape, j: usize, out: &mut [u8], at: usize)
    requires { HasColumn shape j table.now at out.old }
    ensures { out.new ≡ sets out.old at (collect two_bytes (differences 0 (column shape.width shape.count table.now j))) }
{
    let width = shape.width;
    let count = shape.count;
    let mut above: u16 = 0;
    let mut place = j;
    let mut end = at;
    for i in 0..count {
        put_number(table[place].wrapping_sub(above), out, end);
        above = table[place];
        place += width;
        end += 2;
    }
}

// All columns, one after the other.
pub fn put_columns(table: &[u16], shape: Shape, out: &mut [u8], at: usize)
    requires { Has shape table.now at out.old }
    ensures { out.new ≡ sets out.old at (collect two_bytes (laid shape.width shape.count table.now)) }
{
    for j in 0..shape.width {
        put_column(table, shape, j, out, at + 2 * (j * shape.count));
    }
}
