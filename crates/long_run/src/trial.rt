// One trial: a desk and what it should hold, call by call.
ghost use Rattle.std.specs.Prelude.{◌≡◌, IfSome};
ghost use Rattle.book.specs.Seen.{named_by};
ghost use Rattle.book.specs.Slips.{Finishes, Keeps};
ghost use Rattle.desk.specs.Keeping.{on_desk, New, KeepsOthers};

use crate::audit::Audit;
use crate::calls::{Desk, allot_short, finish, tell_short, withdraw_short};
use crate::counts::Call;
use crate::meters::Meters;
use crate::openings::try_open;
use crate::plain::{Choice, Entry};
use crate::random::Random;
use book::month_hour::MonthHour;
use book::settle::Settling;
use book::slip::{RefusedSlip, Slip};
use refusal::Refusal;
use table::lines::BuyerLine;

// The desk, another desk whose book has another number, what the first should hold, and the hour being corrected.
#[derive(Drop)]
pub struct Trial {
    pub desk: Desk,
    pub other: Desk,
    pub audit: Audit,
    pub meters: Meters,
    pub random: Random,
    pub focus: Option<MonthHour>,
}

// Offers a slip to a desk that did not hand it out, and answers it if it was handed back.
fn offer(other: &mut Desk, audit: &mut Audit, slip: Slip) -> Option<Slip>
    ensures back { IfSome result (λ s. s ≡ slip) }
{
    let (got, back) = match other.offer(slip) {
        Ok(()) => (Ok(()), None),
        Err(refused) => {
            let RefusedSlip { refusal, slip } = refused;
            (Err(refusal), Some(slip))
        }
    };
    audit
        .counts
        .note(Call::Finish, Err(Refusal::WrongSlip), got);
    back
}

impl Trial {
    // Tells an hour's energies.
    fn try_tell(&mut self)
        ensures keeps { Keeps (on_desk self.old.desk) (on_desk self.new.desk) }
    {
        let at = self.random.hour_by(self.focus);
        let total = self.random.total();
        let others = [
            self.random.below(500),
            self.random.below(300),
            self.random.below(300),
        ];
        let count = self.random.told();
        let given = &others[..count];
        let expected = self.audit.ledger.tell(at, total, given);
        let got = self.desk.tell(at, total, given);
        self.audit.check(&self.desk, at, Call::Tell, expected, got);
    }

    // Settles over the sources of a choice.
    fn settle(&mut self, settling: &Settling<Choice, Choice>) -> Result<(), Refusal>
        ensures keeps { Keeps (on_desk self.old.desk) (on_desk self.new.desk) }
    {
        let scheduled = self.meters.base(settling.scheduled.way)?;
        let mandatory = self.meters.base(settling.mandatory.way)?;
        self.desk.settle(&Settling {
            resource: settling.resource,
            at: settling.at,
            terms: settling.terms,
            marks: settling.marks,
            scheduled: &scheduled.source(settling.scheduled.sort),
            mandatory: &mandatory.source(settling.mandatory.sort),
        })
    }

    // Settles a resource's hour.
    fn try_settle(&mut self)
        ensures keeps { Keeps (on_desk self.old.desk) (on_desk self.new.desk) }
    {
        let at = self.random.hour_by(self.focus);
        let resource = self.random.number();
        let terms = self.random.terms();
        let marks = self.random.marks();
        let scheduled = self.random.choice();
        let mandatory = self.random.choice();
        let settling = Settling {
            resource,
            at,
            terms,
            marks: &marks,
            scheduled: &scheduled,
            mandatory: &mandatory,
        };
        let expected = self.audit.ledger.settle(&self.meters, &settling);
        let got = self.settle(&settling);
        self.audit
            .check(&self.desk, at, Call::Settle, expected, got);
    }

    // Withdraws a line.
    fn try_withdraw(&mut self)
        ensures keeps { Keeps (on_desk self.old.desk) (on_desk self.new.desk) }
    {
        let at = self.random.hour_by(self.focus);
        let resource = self.random.number();
        let expected = self.audit.ledger.withdraw(resource, at);
        let got = self.desk.withdraw(resource, at);
        self.audit
            .check(&self.desk, at, Call::Withdraw, expected, got);
    }

    // Allots an hour.
    fn try_allot(&mut self)
        ensures keeps { Keeps (on_desk self.old.desk) (on_desk self.new.desk) }
    {
        let at = self.random.hour_by(self.focus);
        let expected = self.audit.ledger.allot(at);
        let got = self.desk.allot(at);
        self.audit.check(&self.desk, at, Call::Allot, expected, got);
    }

    // Reads, or calls for a method.
    fn try_reading(&mut self)
        ensures same { self.new.desk ≡ self.old.desk }
    {
        match self.random.below(8) {
            0..=2 => self.audit.read::<Entry>(&self.desk, &mut self.random),
            3..=5 => self.audit.read::<BuyerLine>(&self.desk, &mut self.random),
            6 => self.audit.call_method(&mut self.random),
            _ => self.audit.compare_sums(&self.desk),
        }
    }

    // One call of any sort but reopening.
    fn one_call(&mut self)
        ensures keeps { Keeps (on_desk self.old.desk) (on_desk self.new.desk) }
    {
        match self.random.below(16) {
            0..=7 => self.try_settle(),
            8..=10 => self.try_tell(),
            11 => self.try_withdraw(),
            12 => self.try_allot(),
            _ => self.try_reading(),
        }
    }

    // Finishes an hour with its slip.
    fn finish(&mut self, at: MonthHour, slip: Slip)
        requires { Finishes (on_desk self.old.desk) (named_by slip) }
        ensures keeps { KeepsOthers (on_desk self.old.desk) (named_by slip) (on_desk self.new.desk) }
    {
        finish(&mut self.desk, slip);
        let expected = self.audit.ledger.finish(at);
        self.audit
            .check(&self.desk, at, Call::Finish, expected, Ok(()));
    }

    // Reopens an hour, and answers its slip if nothing is refused.
    fn reopen(&mut self, at: MonthHour) -> Option<Slip>
        ensures keeps { Keeps (on_desk self.old.desk) (on_desk self.new.desk) }
        ensures finishes { IfSome result (λ slip. Finishes (on_desk self.new.desk) (named_by slip)) }
        ensures apart { IfSome result (λ slip. New (on_desk self.old.desk) (named_by slip)) }
    {
        let expected = self.audit.ledger.reopen(at);
        match self.desk.reopen(at) {
            Err(refusal) => {
                self.audit.counts.note(Call::Reopen, expected, Err(refusal));
                None
            }
            Ok(slip) => {
                self.audit.counts.note(Call::Reopen, expected, Ok(()));
                Some(slip)
            }
        }
    }

    // Reopens an hour, makes two calls and finishes it.
    fn correct_within(&mut self)
        ensures keeps { Keeps (on_desk self.old.desk) (on_desk self.new.desk) }
    {
        let at = self.random.hour_by(self.focus);
        if let Some(slip) = self.reopen(at) {
            self.one_call();
            self.one_call();
            self.finish(at, slip);
        }
    }

    // Makes calls while an hour is in correction, offers its slip to the other desk, and finishes.
    fn amend(&mut self, at: MonthHour, slip: Slip)
        requires { Finishes (on_desk self.old.desk) (named_by slip) }
    {
        self.audit.compare_hour(&self.desk, at);
        self.one_call();
        self.one_call();
        self.correct_within();
        self.one_call();
        if let Some(slip) = offer(&mut self.other, &mut self.audit, slip) {
            self.finish(at, slip);
        }
    }

    // Reopens an hour, corrects it and perhaps another meanwhile, and finishes it.
    fn correct(&mut self) {
        let at = self.random.hour_by(self.focus);
        if let Some(slip) = self.reopen(at) {
            self.focus = Some(at);
            self.amend(at, slip);
            self.focus = None;
        }
    }

    // A call on the other desk over a list that is too short.
    fn other_short(&mut self) {
        let (call, got) = match self.random.below(3) {
            0 => (Call::Tell, tell_short(&mut self.other)),
            1 => (Call::Withdraw, withdraw_short(&mut self.other)),
            _ => (Call::Allot, allot_short(&mut self.other)),
        };
        self.audit.counts.note(call, Err(Refusal::ShortLists), got);
    }

    // Compares the month.
    pub fn compare_month(&mut self) {
        self.audit.compare_month(&self.desk);
    }

    // One turn of the trial.
    pub fn turn(&mut self, number: u32) {
        match number % 20 {
            0 | 10 => self.correct(),
            5 => try_open(&mut self.audit.counts, &mut self.random),
            7 => self.other_short(),
            _ => self.one_call(),
        }
        if number % 100 == 0 {
            self.compare_month();
        }
    }
}
