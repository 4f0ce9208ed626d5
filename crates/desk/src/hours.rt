// The calls that move an hour on: allotting, reopening, and offering a slip.
ghost use Rattle.std.specs.Prelude.{◌≡◌, IfOk, IfErr};
ghost use Rattle.book.specs.Calls.{refusal, step};
ghost use Rattle.book.specs.Calls.Call.{allot, reopen, finish};
ghost use Rattle.book.specs.Seen.{back_or, fresh, granted_or, named_by};
ghost use Rattle.book.specs.Slips.{Finishes, Keeps};
ghost use Rattle.desk.specs.Keeping.{on_desk, New, KeepsOthers};

use crate::Desk;
use book::book::Book;
use book::month_hour::MonthHour;
use book::slip::{RefusedSlip, Slip};
use refusal::Refusal;

impl<const L: usize, const C: usize> Desk<L, C> {
    // Allots an hour.
    pub fn allot(&mut self, at: MonthHour) -> Result<(), Refusal>
        ensures answer { result ≡ granted_or (refusal (allot at.day at.hour) (on_desk self.old)) tt }
        ensures book { on_desk self.new ≡ (step (allot at.day at.hour) (on_desk self.old)).1 }
        ensures keeps { Keeps (on_desk self.old) (on_desk self.new) }
    {
        self.book.allot(&self.lines, &mut self.charges, at)
    }

    // Reopens an hour.
    pub fn reopen(&mut self, at: MonthHour) -> Result<Slip, Refusal>
        ensures answer { result ≡ granted_or (refusal (reopen at.day at.hour) (on_desk self.old)) (fresh self.old.book.register.number at.day at.hour) }
        ensures book { on_desk self.new ≡ (step (reopen at.day at.hour) (on_desk self.old)).1 }
        ensures keeps { Keeps (on_desk self.old) (on_desk self.new) }
        ensures finishes { IfOk result (λ slip. Finishes (on_desk self.new) (named_by slip)) }
        ensures apart { IfOk result (λ slip. New (on_desk self.old) (named_by slip)) }
    {
        self.book.reopen(&self.lines, &mut self.charges, at)
    }

    // Offers a slip to finish with, which a refusal hands back.
    pub fn offer(&mut self, slip: Slip) -> Result<(), RefusedSlip>
        ensures answer { result ≡ back_or (refusal (finish (named_by slip)) (on_desk self.old)) slip }
        ensures book { on_desk self.new ≡ (step (finish (named_by slip)) (on_desk self.old)).1 }
        ensures keeps { KeepsOthers (on_desk self.old) (named_by slip) (on_desk self.new) }
        ensures back { IfErr result (λ refused. refused.slip ≡ slip) }
    {
        self.book.finish(&self.lines, &mut self.charges, slip)
    }
}
