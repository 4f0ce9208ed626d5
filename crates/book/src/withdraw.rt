// Withdrawing a line.
ghost use Rattle.std.specs.Prelude.{◌≡◌};
ghost use Rattle.book.specs.Calls.{refusal, step};
ghost use Rattle.book.specs.Calls.Call.{withdraw};
ghost use Rattle.book.specs.Seen.{seen, granted_or};

use crate::book::Book;
use crate::month_hour::MonthHour;
use crate::rows::put_line;
use refusal::Refusal;
use table::lines::{BuyerLine, ResourceLine};
use table::table::Rows;

impl Book {
    // Takes a resource's line out of an hour that is not allotted.
    pub fn withdraw(
        &self,
        lines: &mut [ResourceLine],
        charges: &[BuyerLine],
        resource: u32,
        at: MonthHour,
    ) -> Result<(), Refusal>
        ensures answer { result ≡ granted_or (refusal (withdraw resource at.day at.hour) (seen self.now lines.old charges.now)) tt }
        ensures book { seen self.now lines.new charges.now ≡ (step (withdraw resource at.day at.hour) (seen self.now lines.old charges.now)).1 }
    {
        let h = self.line_place(lines, charges, resource, at)?;
        let width = self.register.enrolled;
        let rows = Rows { lines, width };
        if rows.line(h.number, resource).is_none() {
            return Err(Refusal::NoLine);
        }
        put_line(lines, width, h.number, resource, None);
        Ok(())
    }
}
