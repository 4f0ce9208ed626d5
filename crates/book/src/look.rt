// What a sheet reads of a book.
ghost use Rattle.std.specs.Prelude.{◌≡◌, ◌≤◌, slice_index_or};
ghost use Rattle.book.specs.Hours.{is_allotted, is_correcting};
ghost use Rattle.book.specs.State.{short_for};
ghost use Rattle.book.specs.declared.hour.Hour.TheVariants.{Blank};

use crate::book::Book;
use crate::energies::Energies;
use crate::hour::Hour;
use crate::register::Register;
use table::lines::{BuyerLine, ResourceLine};

// The hour at a place, numbered from 0; past the last all are blank.
fn hour_of(hours: &[Hour<Energies>], hour: u32) -> Hour<Energies>
    ensures value { result ≡ slice_index_or hours.now hour Blank }
{
    hours.get(hour as usize).copied().unwrap_or(Hour::Blank)
}

impl Book {
    // What the book keeps of its opening.
    pub fn register(&self) -> Register
        ensures value { result ≡ self.now.register }
        ensures bounded { (result.days ≤ 31) × ((result.enrolled ≤ 16) × (result.buyers ≤ 8)) }
    {
        self.register
    }

    // Whether the book holds an hour allotted.
    pub fn holds_allotted(&self, hour: u32) -> bool
        ensures value { result ≡ is_allotted (slice_index_or self.now.hours hour Blank) }
    {
        hour_of(&self.hours, hour).is_allotted()
    }

    // Whether the book holds an hour in correction.
    pub fn holds_correcting(&self, hour: u32) -> bool
        ensures value { result ≡ is_correcting (slice_index_or self.now.hours hour Blank) }
    {
        matches!(hour_of(&self.hours, hour), Hour::Correcting(_))
    }

    // Whether a list is shorter than the measure.
    pub fn lacks_places(&self, lines: &[ResourceLine], charges: &[BuyerLine]) -> bool
        ensures value { result ≡ short_for self.now.register lines.now charges.now }
    {
        let hours = self.register.days as usize * 24;
        lines.len() < hours * self.register.enrolled as usize
            || charges.len() < hours * self.register.buyers as usize
    }
}
