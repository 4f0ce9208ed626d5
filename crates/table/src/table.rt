// One table over lines of either sort; a place past the list's end reads as an empty line and is not written.
ghost use Rattle.std.specs.Prelude.{◌≡◌, ◌+◌, ◌*◌, ◌^◌, ◌<◌, ◌≤◌, min, length, ◌+ℤ◌, slice_index_or, slice_set, unsigned_abs};
ghost use Rattle.won.specs.Sums.{total_to};
ghost use Rattle.table.specs.Tables.{filled};

use crate::lines::Amounts;

// What the lines of a row come to, in won.
#[derive(Clone, Copy, PartialEq, Eq, Debug, Default)]
pub struct Sums {
    pub due: i128,
    pub back: i128,
}

// Where the row's column lies in the list.
fn place_of(width: u32, hour: u32, column: u32) -> usize
    ensures value { result ≡ hour * width + column }
{
    hour as usize * width as usize + column as usize
}

// The line at a place of the list.
fn line_of<L: Amounts>(lines: &[L], place: usize) -> L
    ensures value { result ≡ slice_index_or lines.now place L.Amounts.empty }
{
    lines.get(place).copied().unwrap_or(L::empty())
}

// Writes the line at a place of the list.
// Stays: after `get_mut` nothing is known of the list.
fn write<L: Amounts>(lines: &mut [L], place: usize, line: L)
    ensures value { lines.new ≡ slice_set lines.old place line }
{
    if place < lines.len() {
        lines[place] = line;
    }
}

// Writes the first `count` lines of a row from a place on.
fn copy<L: Amounts>(lines: &mut [L], from: usize, count: usize, row: &[L])
    requires { count ≤ length row.now }
    ensures value { lines.new ≡ filled lines.old from count (λ k. slice_index_or row.now k L.Amounts.empty) }
{
    let from = from.min(lines.len());
    let count = count.min(lines.len() - from);
    lines[from..from + count].copy_from_slice(&row[..count]);
}

// Empties `count` places of the list from a place on.
fn clear<L: Amounts>(lines: &mut [L], from: usize, count: usize)
    ensures value { lines.new ≡ filled lines.old from count (λ _. L.Amounts.empty) }
{
    let from = from.min(lines.len());
    let count = count.min(lines.len() - from);
    lines[from..from + count].fill_with(|| L::empty());
}

impl Sums {
    // What one line comes to.
    pub fn of<L: Amounts>(line: L) -> Sums
        ensures due { result.due ≡ L.Amounts.due line }
        ensures back { result.back ≡ L.Amounts.back line }
        ensures bounded { (unsigned_abs result.due ≤ L.Amounts.most) × (unsigned_abs result.back ≤ L.Amounts.most) }
        ensures narrow { (unsigned_abs result.due ≤ 2 ^ 63) × (unsigned_abs result.back ≤ 2 ^ 63) }
    {
        Sums {
            due: i128::from(line.due()),
            back: i128::from(line.back()),
        }
    }
}

impl Sums {
    // These sums with others.
    // Stays: it asks that what they come to fits, which no public function may, so the sheet has its own.
    fn plus(self, other: Sums) -> Sums
        requires due_fits { unsigned_abs (self.due +ℤ other.due) < 2 ^ 127 }
        requires back_fits { unsigned_abs (self.back +ℤ other.back) < 2 ^ 127 }
        ensures due { result.due ≡ self.due +ℤ other.due }
        ensures back { result.back ≡ self.back +ℤ other.back }
    {
        Sums {
            due: self.due + other.due,
            back: self.back + other.back,
        }
    }
}

// A list of lines as it is read, with a row of `width` places for each hour.
#[derive(Clone, Copy)]
pub struct Rows<'a, L> {
    pub lines: &'a [L],
    pub width: u32,
}

impl<'a, L: Amounts> Rows<'a, L> {
    // The line at a column of an hour's row.
    pub fn line(&self, hour: u32, column: u32) -> L
        ensures value { result ≡ slice_index_or self.now.lines.now (hour * self.now.width + column) L.Amounts.empty }
    {
        line_of(self.lines, place_of(self.width, hour, column))
    }

    // What an hour's row comes to.
    pub fn sums(&self, hour: u32) -> Sums
        ensures due { result.due ≡ total_to self.now.width (λ k. L.Amounts.due (slice_index_or self.now.lines.now (hour * self.now.width + k) L.Amounts.empty)) }
        ensures back { result.back ≡ total_to self.now.width (λ k. L.Amounts.back (slice_index_or self.now.lines.now (hour * self.now.width + k) L.Amounts.empty)) }
        ensures bounded { (unsigned_abs result.due ≤ self.now.width * L.Amounts.most) × (unsigned_abs result.back ≤ self.now.width * L.Amounts.most) }
    {
        let mut sums = Sums::default();
        for column in 0..self.width {
            sums = sums.plus(Sums::of(self.line(hour, column)));
        }
        sums
    }
}

// A lent list of lines, with a row of `width` places for each hour.
#[derive(Drop)]
pub struct Table<'a, L> {
    lines: &'a mut [L],
    width: u32,
}

impl<'a, L: Amounts> Table<'a, L> {
    pub fn new(lines: &'a mut [L], width: u32) -> Table<'a, L>
        ensures holds { result.lines.now ≡ lines.old }
        ensures same { result.lines.ghost_name ≡ lines.entry.ghost_name }
        ensures wide { result.width ≡ width }
    {
        Table { lines, width }
    }

    // The list as it is read.
    fn rows(&self) -> Rows<'_, L>
        ensures holds { result.lines.now ≡ self.now.lines.now }
        ensures wide { result.width ≡ self.now.width }
    {
        Rows {
            lines: self.lines,
            width: self.width,
        }
    }

    // The line at a column of an hour's row.
    pub fn line(&self, hour: u32, column: u32) -> L
        ensures value { result ≡ slice_index_or self.now.lines.now (hour * self.now.width + column) L.Amounts.empty }
    {
        self.rows().line(hour, column)
    }

    // What an hour's row comes to.
    pub fn sums(&self, hour: u32) -> Sums
        ensures due { result.due ≡ total_to self.now.width (λ k. L.Amounts.due (slice_index_or self.now.lines.now (hour * self.now.width + k) L.Amounts.empty)) }
        ensures back { result.back ≡ total_to self.now.width (λ k. L.Amounts.back (slice_index_or self.now.lines.now (hour * self.now.width + k) L.Amounts.empty)) }
        ensures bounded { (unsigned_abs result.due ≤ self.now.width * L.Amounts.most) × (unsigned_abs result.back ≤ self.now.width * L.Amounts.most) }
    {
        self.rows().sums(hour)
    }

    // Stays: that the list lies where it lay and is as wide is said by each call that writes, as no invariant speaks of before and after.
    // Writes the line at a column of an hour's row.
    pub fn put(&mut self, hour: u32, column: u32, line: L)
        ensures after { self.new.lines.now ≡ slice_set self.old.lines.now (hour * self.old.width + column) line }
        ensures same { self.new.lines.ghost_name ≡ self.old.lines.ghost_name }
        ensures wide { self.new.width ≡ self.old.width }
    {
        let place = place_of(self.width, hour, column);
        write(self.lines, place, line);
    }

    // Writes an hour's row, as far as the lines handed in go.
    pub fn put_row(&mut self, hour: u32, row: &[L])
        ensures after { self.new.lines.now ≡ filled self.old.lines.now (hour * self.old.width) (min self.old.width (length row.now)) (λ k. slice_index_or row.now k L.Amounts.empty) }
        ensures same { self.new.lines.ghost_name ≡ self.old.lines.ghost_name }
        ensures wide { self.new.width ≡ self.old.width }
    {
        let from = place_of(self.width, hour, 0);
        let count = row.len().min(self.width as usize);
        copy(self.lines, from, count, row);
    }

    // Empties an hour's row.
    pub fn clear_row(&mut self, hour: u32)
        ensures after { self.new.lines.now ≡ filled self.old.lines.now (hour * self.old.width) self.old.width (λ _. L.Amounts.empty) }
        ensures same { self.new.lines.ghost_name ≡ self.old.lines.ghost_name }
        ensures wide { self.new.width ≡ self.old.width }
    {
        let from = place_of(self.width, hour, 0);
        let count = self.width as usize;
        clear(self.lines, from, count);
    }

    // Empties the rows of the first `hours` hours.
    pub fn clear(&mut self, hours: u32)
        ensures after { self.new.lines.now ≡ filled self.old.lines.now 0 (hours * self.old.width) (λ _. L.Amounts.empty) }
        ensures same { self.new.lines.ghost_name ≡ self.old.lines.ghost_name }
        ensures wide { self.new.width ≡ self.old.width }
    {
        let count = place_of(self.width, hours, 0);
        clear(self.lines, 0, count);
    }
}
