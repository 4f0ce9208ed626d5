// Readings of a book.
ghost use Rattle.std.specs.Prelude.{◌≡◌};
ghost use Rattle.book.specs.Readings.{reading_of, line_read, charge_read};
ghost use Rattle.book.specs.Seen.{seen};

use crate::book::Book;
use crate::month_hour::MonthHour;
use refusal::Refusal;
use settlement::terms::Line;
use table::lines::{BuyerLine, ResourceLine};
use table::table::Rows;

// What a line says: plan, order, SR, DR, DLR and SLR in Wh, paid and fined in won.
#[derive(Clone, Copy, PartialEq, Eq, Debug)]
pub struct LineReading {
    pub plan: u32,
    pub order: u32,
    pub sr: i64,
    pub dr: i64,
    pub dlr: u64,
    pub slr: u64,
    pub paid: i64,
    pub fined: u32,
}

// Plan pay and order pay are paid together.
impl From<Line> for LineReading {
    ghost from_gives = { λ line reading. reading ≡ reading_of line };

    fn from(line: Line) -> LineReading {
        LineReading {
            plan: line.plan,
            order: line.order,
            sr: line.sr,
            dr: line.dr,
            dlr: line.dlr,
            slr: line.slr,
            paid: i64::from(line.plan_pay) + i64::from(line.order_pay),
            fined: line.fined,
        }
    }
}

impl Book {
    // What a resource's line in an hour says.
    pub fn read_line(
        &self,
        lines: &[ResourceLine],
        charges: &[BuyerLine],
        resource: u32,
        at: MonthHour,
    ) -> Result<LineReading, Refusal>
        ensures value { result ≡ line_read (seen self.now lines.now charges.now) resource at.day at.hour }
    {
        let h = self.resource_place(lines, charges, resource, at)?;
        let rows = Rows {
            lines,
            width: self.register.enrolled,
        };
        match rows.line(h.number, resource) {
            Some(line) => Ok(LineReading::from(line)),
            None => Err(Refusal::NoLine),
        }
    }

    // A buyer's charge and refund in an allotted hour.
    pub fn read_charge(
        &self,
        lines: &[ResourceLine],
        charges: &[BuyerLine],
        buyer: u32,
        at: MonthHour,
    ) -> Result<BuyerLine, Refusal>
        ensures value { result ≡ charge_read (seen self.now lines.now charges.now) buyer at.day at.hour }
    {
        let h = self.hour_place(lines, charges, at)?;
        if buyer >= self.register.buyers {
            return Err(Refusal::NoSuchBuyer);
        }
        if !self.hours[h.number as usize].is_allotted() {
            return Err(Refusal::HourNotAllotted);
        }
        let rows = Rows {
            lines: charges,
            width: self.register.buyers,
        };
        Ok(rows.line(h.number, buyer))
    }
}
