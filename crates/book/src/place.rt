// The hour that a call names, and whether the call may go on with it.
ghost use Rattle.std.specs.Prelude.{◌≡◌, not};
ghost use Rattle.refusal.specs.Tests.{refused_if, first_of};
ghost use Rattle.book.specs.State.{in_month, place};
ghost use Rattle.book.specs.Calls.{place_tests, resource_tests, hour_tests, line_tests, slip_tests};
ghost use Rattle.book.specs.Seen.{seen, named_by, granted_or, number_or};

use crate::book::Book;
use crate::month_hour::{HourNumber, MonthHour};
use crate::slip::Slip;
use refusal::Refusal;
use table::lines::{BuyerLine, ResourceLine};

// Stays: each call is lent both lists apart, and only the one that it writes by `&mut`, which one value of both could not say.
impl Book {
    // The number of an hour, refused unless it is one of the month.
    fn number_of(&self, at: MonthHour, refusal: Refusal) -> Result<HourNumber, Refusal>
        ensures value { number_or result ≡ granted_or (refused_if (not (in_month self.now.register at.day at.hour)) refusal) (place at.day at.hour) }
    {
        let MonthHour { day, hour } = at;
        if day < 1 || day > self.register.days || hour < 1 || hour > 24 {
            return Err(refusal);
        }
        Ok(HourNumber {
            number: (day - 1) * 24 + (hour - 1),
        })
    }

    // The number of the hour that a call names.
    pub(crate) fn hour_place(
        &self,
        lines: &[ResourceLine],
        charges: &[BuyerLine],
        at: MonthHour,
    ) -> Result<HourNumber, Refusal>
        ensures value { number_or result ≡ granted_or (first_of (place_tests (seen self.now lines.now charges.now) at.day at.hour)) (place at.day at.hour) }
    {
        if self.lacks_places(lines, charges) {
            return Err(Refusal::ShortLists);
        }
        self.number_of(at, Refusal::NoSuchHour)
    }

    // The number of the hour of a slip of this book.
    pub(crate) fn slip_place(
        &self,
        lines: &[ResourceLine],
        charges: &[BuyerLine],
        slip: &Slip,
    ) -> Result<HourNumber, Refusal>
        ensures value { number_or result ≡ granted_or (first_of (slip_tests (seen self.now lines.now charges.now) (named_by slip.now))) (place slip.now.at.day slip.now.at.hour) }
    {
        if self.lacks_places(lines, charges) {
            return Err(Refusal::ShortLists);
        }
        if slip.number != self.register.number {
            return Err(Refusal::WrongSlip);
        }
        self.number_of(slip.at, Refusal::WrongSlip)
    }

    // The number of the hour whose energies may be told.
    pub(crate) fn telling_place(
        &self,
        lines: &[ResourceLine],
        charges: &[BuyerLine],
        at: MonthHour,
    ) -> Result<HourNumber, Refusal>
        ensures value { number_or result ≡ granted_or (first_of (hour_tests (seen self.now lines.now charges.now) at.day at.hour)) (place at.day at.hour) }
    {
        let h = self.hour_place(lines, charges, at)?;
        if self.hours[h.number as usize].is_allotted() {
            return Err(Refusal::HourAllotted);
        }
        Ok(h)
    }

    // The number of the hour in which a resource has its line.
    pub(crate) fn resource_place(
        &self,
        lines: &[ResourceLine],
        charges: &[BuyerLine],
        resource: u32,
        at: MonthHour,
    ) -> Result<HourNumber, Refusal>
        ensures value { number_or result ≡ granted_or (first_of (resource_tests (seen self.now lines.now charges.now) resource at.day at.hour)) (place at.day at.hour) }
    {
        let h = self.hour_place(lines, charges, at)?;
        if resource >= self.register.enrolled {
            return Err(Refusal::NoSuchResource);
        }
        Ok(h)
    }

    // The number of the hour in which a resource's line may change.
    pub(crate) fn line_place(
        &self,
        lines: &[ResourceLine],
        charges: &[BuyerLine],
        resource: u32,
        at: MonthHour,
    ) -> Result<HourNumber, Refusal>
        ensures value { number_or result ≡ granted_or (first_of (line_tests (seen self.now lines.now charges.now) resource at.day at.hour)) (place at.day at.hour) }
    {
        let h = self.resource_place(lines, charges, resource, at)?;
        if self.hours[h.number as usize].is_allotted() {
            return Err(Refusal::HourAllotted);
        }
        Ok(h)
    }
}
