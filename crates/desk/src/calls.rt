// The calls that write an hour's energies and lines.
ghost use Rattle.std.specs.Prelude.{◌≡◌};
ghost use Rattle.book.specs.Calls.{refusal, step};
ghost use Rattle.book.specs.Calls.Call.{tell, settle, withdraw};
ghost use Rattle.book.specs.Seen.{asked_by, granted_or};
ghost use Rattle.book.specs.Slips.{Keeps};
ghost use Rattle.desk.specs.Keeping.{on_desk};

use crate::Desk;
use baseline::source::BaselineSource;
use book::book::Book;
use book::month_hour::MonthHour;
use book::settle::Settling;
use refusal::Refusal;

impl<const L: usize, const C: usize> Desk<L, C> {
    // Tells an hour's energies.
    pub fn tell(&mut self, at: MonthHour, total: u32, others: &[u32]) -> Result<(), Refusal>
        ensures answer { result ≡ granted_or (refusal (tell at.day at.hour total others.now) (on_desk self.old)) tt }
        ensures book { on_desk self.new ≡ (step (tell at.day at.hour total others.now) (on_desk self.old)).1 }
        ensures keeps { Keeps (on_desk self.old) (on_desk self.new) }
    {
        self.book
            .tell(&self.lines, &self.charges, at, total, others)
    }

    // Settles a resource's hour.
    pub fn settle<S: BaselineSource, M: BaselineSource>(
        &mut self,
        settling: &Settling<S, M>,
    ) -> Result<(), Refusal>
        ensures answer { result ≡ granted_or (refusal (settle (asked_by S.BaselineSource.meaning M.BaselineSource.meaning settling.now)) (on_desk self.old)) tt }
        ensures book { on_desk self.new ≡ (step (settle (asked_by S.BaselineSource.meaning M.BaselineSource.meaning settling.now)) (on_desk self.old)).1 }
        ensures keeps { Keeps (on_desk self.old) (on_desk self.new) }
    {
        self.book.settle(&mut self.lines, &self.charges, settling)
    }

    // Withdraws a line.
    pub fn withdraw(&mut self, resource: u32, at: MonthHour) -> Result<(), Refusal>
        ensures answer { result ≡ granted_or (refusal (withdraw resource at.day at.hour) (on_desk self.old)) tt }
        ensures book { on_desk self.new ≡ (step (withdraw resource at.day at.hour) (on_desk self.old)).1 }
        ensures keeps { Keeps (on_desk self.old) (on_desk self.new) }
    {
        self.book
            .withdraw(&mut self.lines, &self.charges, resource, at)
    }
}
