// The month's sums, and the law that binds them.
ghost use Rattle.std.specs.Prelude.{◌≡◌, ◌^◌, ◌<◌, ◌≤◌};
ghost use Rattle.book.specs.Bounds.{AllWithin};
ghost use Rattle.book.specs.Reconciled.{added, hour_sums, held_sums, sums_to, reconciled, Lawful};
ghost use Rattle.book.specs.State.{hours_of};
ghost use Rattle.book.specs.Seen.{seen};

use crate::book::Book;
use refusal::Refusal;
use table::lines::{BuyerLine, ResourceLine};
use table::table::Rows;

// What was paid, fined, charged and refunded, in won.
#[derive(Clone, Copy, PartialEq, Eq, Default)]
pub struct Reconciliation {
    pub payments: i128,
    pub fines: i128,
    pub charges: i128,
    pub refunds: i128,
}

impl Reconciliation {
    // These sums with others.
    fn plus(self, other: Reconciliation) -> Reconciliation
        requires self_within { AllWithin (2 ^ 100) self }
        requires other_within { AllWithin (2 ^ 100) other }
        ensures value { result ≡ added self other }
    {
        Reconciliation {
            payments: self.payments + other.payments,
            fines: self.fines + other.fines,
            charges: self.charges + other.charges,
            refunds: self.refunds + other.refunds,
        }
    }
}

impl Book {
    // An hour's sums of its lines and charges.
    fn hour_sums(&self, lines: &[ResourceLine], charges: &[BuyerLine], h: u32) -> Reconciliation
        ensures value { result ≡ hour_sums (seen self.now lines.now charges.now) h }
        ensures bounded { AllWithin (2 ^ 66) result }
    {
        let paid = Rows {
            lines,
            width: self.register.enrolled,
        }
        .sums(h);
        let charged = Rows {
            lines: charges,
            width: self.register.buyers,
        }
        .sums(h);
        Reconciliation {
            payments: paid.due,
            fines: paid.back,
            charges: charged.due,
            refunds: charged.back,
        }
    }

    // An hour's sums if it is allotted, else nothing.
    fn held_sums(&self, lines: &[ResourceLine], charges: &[BuyerLine], h: u32) -> Reconciliation
        requires { h < 744 }
        ensures value { result ≡ held_sums (seen self.now lines.now charges.now) h }
        ensures bounded { AllWithin (2 ^ 66) result }
    {
        if self.hours[h as usize].is_allotted() {
            return self.hour_sums(lines, charges, h);
        }
        Reconciliation::default()
    }

    // The sums of all hours of the month that are allotted.
    fn month_sums(&self, lines: &[ResourceLine], charges: &[BuyerLine]) -> Reconciliation
        ensures value { result ≡ sums_to (seen self.now lines.now charges.now) (hours_of self.now.register) }
    {
        let mut sums = Reconciliation::default();
        let hours = self.register.days * 24;
        for h in 0..hours {
            sums = sums.plus(self.held_sums(lines, charges, h));
        }
        sums
    }

    // What was paid, fined, charged and refunded in the hours that are allotted, for the clearing bank.
    pub fn reconcile(
        &self,
        lines: &[ResourceLine],
        charges: &[BuyerLine],
    ) -> Result<Reconciliation, Refusal>
        ensures answer { result ≡ reconciled (seen self.now lines.now charges.now) }
        ensures law { Lawful (seen self.now lines.now charges.now) result }
    {
        if self.lacks_places(lines, charges) {
            return Err(Refusal::ShortLists);
        }
        Ok(self.month_sums(lines, charges))
    }
}
