// The records of a table, out of the bytes of its columns. The contracts cite specs/Placed, and `Columns` of
// columns_model.
ghost use Rattle.std.specs.Prelude.{◌≡◌, map, ◌-◌, ◌*◌, ◌≤◌, length, take, drop, replicate};
ghost use Rattle.std.proofs.lemmas.List.Edits.{sets};
ghost use Rattle.model.specs.Tables.{fronted};
ghost use Rattle.tables.specs.Rows.{rows};
ghost use Rattle.columns_model.specs.Differences.{sums, numbers_of};
ghost use Rattle.columns_model.specs.Columns.{raised};
ghost use Rattle.columns.specs.Placed.{placed, placed_all, Has, HasColumn};

use crate::numbers::number_at;
use crate::shape::Shape;

// Column j of the table, out of the bytes from a place on. The two places go on by an addition each, as in laying.
fn take_column(bytes: &[u8], at: usize, shape: Shape, j: usize, table: &mut [u16])
    requires { HasColumn shape j table.old at bytes.now }
    ensures { table.new ≡ placed shape.width (sums 0 (take shape.count (numbers_of (drop at bytes.now)))) j table.old }
{
    let width = shape.width;
    let count = shape.count;
    let mut above: u16 = 0;
    let mut place = j;
    let mut next = at;
    for i in 0..count {
        above = above.wrapping_add(number_at(bytes, next));
        table[place] = above;
        place += width;
        next += 2;
    }
}

// All columns, one after the other.
fn take_columns(bytes: &[u8], at: usize, shape: Shape, table: &mut [u16])
    requires { Has shape table.old at bytes.now }
    ensures { table.new ≡ placed_all shape.width (map (sums 0) (rows shape.count shape.width (numbers_of (drop at bytes.now)))) 0 table.old }
{
    for j in 0..shape.width {
        take_column(bytes, at + 2 * (j * shape.count), shape, j, table);
    }
}

// The records into a table's front part, zeros after, out of the bytes from a place on.
pub fn fill(bytes: &[u8], at: usize, shape: Shape, front: usize, table: &mut [u16])
    requires has { Has shape table.old at bytes.now }
    requires width_bound { (shape.count * shape.width ≤ front) × (front ≤ length table.old) }
    ensures { table.new ≡ fronted front (raised shape.width shape.count (numbers_of (drop at bytes.now))) table.old }
{
    let records = shape.count * shape.width;
    take_columns(bytes, at, shape, table);
    table[records..front].fill(0);
}
