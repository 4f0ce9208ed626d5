// Counts and sums over the hours of a book.
ghost use Rattle.std.specs.Prelude.{◌≡◌, ℕ, ◌+◌, ◌*◌, ◌^◌, ◌<◌, ◌+ℤ◌, Bool, slice_index_or, unsigned_abs};
ghost use Rattle.book.specs.State.{hours_of};
ghost use Rattle.sheet.specs.Evening.{count_to, over_allotted};

use book::book::Book;
use table::lines::Amounts;
use table::table::{Rows, Sums};

// How many hours of the month a test holds of.
pub(crate) fn hours_that<T: Fn(u32) -> bool>(book: &Book, test: T) -> u32
    requires { T.IsAlwaysCallable test }
    ensures value { (holds : ℕ → Bool) → ((hour : ℕ) (r : Bool) → hour < hours_of book.now.register → T.post test hour r → r ≡ holds hour) → result ≡ count_to (hours_of book.now.register) holds }
{
    let mut count = 0;
    for hour in 0..book.register().days * 24 {
        count += u32::from(test(hour));
    }
    count
}

// Two sums together.
// Stays: as the table's own, which is private, since it asks that what they come to fits.
fn plus(sums: Sums, more: Sums) -> Sums
    requires due_fits { unsigned_abs (sums.due +ℤ more.due) < 2 ^ 127 }
    requires back_fits { unsigned_abs (sums.back +ℤ more.back) < 2 ^ 127 }
    ensures due { result.due ≡ sums.due +ℤ more.due }
    ensures back { result.back ≡ sums.back +ℤ more.back }
{
    Sums {
        due: sums.due + more.due,
        back: sums.back + more.back,
    }
}

// What a column of lines comes to over the month's allotted hours.
pub(crate) fn column_sums<L: Amounts>(book: &Book, rows: &Rows<L>, column: u32) -> Sums
    ensures due { result.due ≡ over_allotted book.now.register book.now.hours (λ h. L.Amounts.due (slice_index_or rows.now.lines.now (h * rows.now.width + column) L.Amounts.empty)) }
    ensures back { result.back ≡ over_allotted book.now.register book.now.hours (λ h. L.Amounts.back (slice_index_or rows.now.lines.now (h * rows.now.width + column) L.Amounts.empty)) }
{
    let mut sums = Sums::default();
    for hour in 0..book.register().days * 24 {
        let allotted = book.holds_allotted(hour);
        if allotted {
            let line = rows.line(hour, column);
            sums = plus(sums, Sums::of(line));
        }
    }
    sums
}
