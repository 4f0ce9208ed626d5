// A book with its two lists, of any lengths, and its calls.
#![tactic(auto)]

mod calls;
mod hours;
mod readings;

ghost use Rattle.std.specs.Prelude.{◌≡◌, replicate};
ghost use Rattle.book.specs.Opening.{blank_register, after_opening, opening_refusal};
ghost use Rattle.book.specs.Seen.{granted_or, told_by};
ghost use Rattle.book.specs.declared.hour.Hour.TheVariants.{Blank};
ghost use Rattle.desk.specs.Keeping.{on_desk};

use book::book::Book;
use book::open::Opening;
use refusal::Refusal;
use table::lines::{BuyerLine, ResourceLine};

// A book, and the lists that its calls are lent.
#[derive(Drop, PartialEq)]
pub struct Desk<const L: usize, const C: usize> {
    pub book: Book,
    pub lines: [ResourceLine; L],
    pub charges: [BuyerLine; C],
}

// Stays: the calls forward to the book's one by one, since each line shows which of the two lists its call may write.
impl<const L: usize, const C: usize> Desk<L, C> {
    // A book not yet opened, with the same line and the same charge in each place.
    pub fn new(line: ResourceLine, charge: BuyerLine) -> Desk<L, C>
        ensures register { result.book.register ≡ blank_register }
        ensures hours { result.book.hours ≡ replicate 744 Blank }
        ensures lines { result.lines ≡ replicate L line }
        ensures charges { result.charges ≡ replicate C charge }
    {
        Desk {
            book: Book::new(),
            lines: [line; L],
            charges: [charge; C],
        }
    }

    // Opens the book.
    pub fn open(&mut self, opening: Opening) -> Result<(), Refusal>
        ensures answer { result ≡ granted_or (opening_refusal (told_by opening.entry) (on_desk self.old)) tt }
        ensures book { on_desk self.new ≡ after_opening (told_by opening.entry) (on_desk self.old) }
    {
        self.book.open(opening, &mut self.lines, &mut self.charges)
    }
}
