// Settling a resource's hour.
ghost use Rattle.std.specs.Prelude.{◌≡◌, ◌<◌, true};
ghost use Rattle.book.specs.State.{in_month};
ghost use Rattle.book.specs.Calls.{class_of, portfolio_of, slot_of, reckon, refusal, step};
ghost use Rattle.book.specs.Calls.Call.{settle};
ghost use Rattle.book.specs.Seen.{seen, asked_by, granted_or};

use crate::book::Book;
use crate::month_hour::MonthHour;
use crate::register::Resource;
use crate::rows::put_line;
use baseline::source::BaselineSource;
use load::loads::DayClass;
use refusal::Refusal;
use settlement::terms::{Line, Portfolio, ResourceHour, Slot, Terms};
use table::lines::{BuyerLine, ResourceLine};

// The resource and its hour, the terms, the marks of the customers that take part, and the scheduled and the mandatory source.
#[derive(Drop)]
pub struct Settling<'a, S, M> {
    pub resource: u32,
    pub at: MonthHour,
    pub terms: Terms,
    pub marks: &'a [u8],
    pub scheduled: &'a S,
    pub mandatory: &'a M,
}

// The class of a day by its number.
// Stays: a day of the month has two classes, where the sources' conversion of a byte has a third for the other bytes.
fn class_of(class: u8) -> DayClass
    ensures value { result ≡ class_of class }
{
    match class {
        0 => DayClass::Workday,
        _ => DayClass::Holiday,
    }
}

// The resource as its customers and its kind.
impl From<Resource> for Portfolio {
    ghost from_gives = { λ resource portfolio. portfolio ≡ portfolio_of resource };

    fn from(resource: Resource) -> Portfolio {
        Portfolio {
            kind: resource.kind,
            customers: resource.customers,
        }
    }
}

impl Book {
    // An hour of the month as the sources know it.
    fn slot(&self, at: MonthHour) -> Slot
        requires { in_month self.now.register at.day at.hour ≡ true }
        ensures value { result ≡ slot_of self.now.register at.day at.hour }
    {
        Slot {
            month: self.register.month,
            class: class_of(self.register.classes[at.day as usize - 1]),
            day: self.register.first_day + (at.day - 1),
            hour: at.hour,
        }
    }

    // The line of a settling, or why there is none.
    fn reckon<S: BaselineSource, M: BaselineSource>(
        &self,
        settling: &Settling<S, M>,
    ) -> Result<Line, Refusal>
        requires hour_named { in_month self.now.register settling.now.at.day settling.now.at.hour ≡ true }
        requires resource_known { settling.now.resource < self.now.register.enrolled }
        ensures value { result ≡ reckon self.now.register (asked_by S.BaselineSource.meaning M.BaselineSource.meaning settling.now) }
    {
        let hour = ResourceHour {
            portfolio: Portfolio::from(self.register.resources[settling.resource as usize]),
            slot: self.slot(settling.at),
            terms: settling.terms,
        };
        hour.settle(settling.scheduled, settling.mandatory, settling.marks)
    }

    // Settles a resource's hour that is not allotted, over two sources; the line replaces the one before.
    pub fn settle<S: BaselineSource, M: BaselineSource>(
        &self,
        lines: &mut [ResourceLine],
        charges: &[BuyerLine],
        settling: &Settling<S, M>,
    ) -> Result<(), Refusal>
        ensures answer { result ≡ granted_or (refusal (settle (asked_by S.BaselineSource.meaning M.BaselineSource.meaning settling.now)) (seen self.now lines.old charges.now)) tt }
        ensures book { seen self.now lines.new charges.now ≡ (step (settle (asked_by S.BaselineSource.meaning M.BaselineSource.meaning settling.now)) (seen self.now lines.old charges.now)).1 }
    {
        let h = self.line_place(lines, charges, settling.resource, settling.at)?;
        let line = self.reckon(settling)?;
        let width = self.register.enrolled;
        put_line(lines, width, h.number, settling.resource, Some(line));
        Ok(())
    }
}
