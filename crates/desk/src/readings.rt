// What a desk says.
ghost use Rattle.std.specs.Prelude.{◌≡◌};
ghost use Rattle.book.specs.Readings.{charge_read, line_read};
ghost use Rattle.book.specs.Reconciled.{reconciled, Lawful};
ghost use Rattle.desk.specs.Keeping.{on_desk};

use crate::Desk;
use book::book::Book;
use book::month_hour::MonthHour;
use book::read::LineReading;
use book::reconcile::Reconciliation;
use refusal::Refusal;
use table::lines::BuyerLine;

impl<const L: usize, const C: usize> Desk<L, C> {
    // Reads a resource's line.
    pub fn read_line(&self, resource: u32, at: MonthHour) -> Result<LineReading, Refusal>
        ensures value { result ≡ line_read (on_desk self.now) resource at.day at.hour }
    {
        self.book
            .read_line(&self.lines, &self.charges, resource, at)
    }

    // Reads a buyer's charge and refund.
    pub fn read_charge(&self, buyer: u32, at: MonthHour) -> Result<BuyerLine, Refusal>
        ensures value { result ≡ charge_read (on_desk self.now) buyer at.day at.hour }
    {
        self.book.read_charge(&self.lines, &self.charges, buyer, at)
    }

    // Adds up the month.
    pub fn reconcile(&self) -> Result<Reconciliation, Refusal>
        ensures answer { result ≡ reconciled (on_desk self.now) }
        ensures law { Lawful (on_desk self.now) result }
    {
        self.book.reconcile(&self.lines, &self.charges)
    }
}
