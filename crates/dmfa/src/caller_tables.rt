// The front parts of the caller's tables: records first, zeros after, and nothing beyond. The contracts cite `fronted` of model.
ghost use Rattle.std.specs.Prelude.{◌≡◌, ◌≤◌, length, take};
ghost use Rattle.model.specs.Tables.{fronted};

// Puts the first `n` of these numbers into a table's front, and zeros behind them up to the front's end.
pub fn fill(records: &[u16], n: usize, front: usize, table: &mut [u16])
    requires { (n ≤ length records.now) × (n ≤ front) × (front ≤ length table.old) }
    ensures { table.new ≡ fronted front (take n records.now) table.old }
{
    table[..n].copy_from_slice(&records[..n]);
    table[n..front].fill(0);
}
