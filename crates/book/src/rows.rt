// Rows of the two lists, each by one table.
ghost use Rattle.std.specs.Prelude.{◌≡◌, ◌+◌, ◌*◌, ◌≤◌, min, length, slice_index_or, slice_set};
ghost use Rattle.table.specs.Tables.{filled};

use table::lines::Amounts;
use table::table::Table;

// Stays: each makes a table over a lent list for one call of it; written out where they are called the loan would stand there as well.
// Empties the lines of the first hours.
pub(crate) fn clear<L: Amounts>(lines: &mut [L], width: u32, hours: u32)
    ensures value { lines.new ≡ filled lines.old 0 (hours * width) (λ _. L.Amounts.empty) }
{
    let mut table = Table::new(lines, width);
    table.clear(hours);
}

// Empties the lines of an hour.
pub(crate) fn clear_row<L: Amounts>(lines: &mut [L], width: u32, hour: u32)
    ensures value { lines.new ≡ filled lines.old (hour * width) width (λ _. L.Amounts.empty) }
{
    let mut table = Table::new(lines, width);
    table.clear_row(hour);
}

// Writes the line at a column of an hour's row.
pub(crate) fn put_line<L: Amounts>(lines: &mut [L], width: u32, hour: u32, column: u32, line: L)
    ensures value { lines.new ≡ slice_set lines.old (hour * width + column) line }
{
    let mut table = Table::new(lines, width);
    table.put(hour, column, line);
}

// Writes the lines of an hour.
pub(crate) fn put_row<L: Amounts>(lines: &mut [L], width: u32, hour: u32, row: &[L])
    ensures value { lines.new ≡ filled lines.old (hour * width) (min width (length row.now)) (λ k. slice_index_or row.now k L.Amounts.empty) }
{
    let mut table = Table::new(lines, width);
    table.put_row(hour, row);
}
