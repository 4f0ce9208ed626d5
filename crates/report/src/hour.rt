// An hour's money: the line of the named day's hour, and what each buyer is charged and refunded.
ghost use Rattle.std.specs.Prelude.{◌≡◌};
ghost use Rattle.settlement.specs.Settle.{settled};
ghost use Rattle.share.specs.Shares.{shared};

use baseline::source::BaselineSource;
use load::loads::DayClass;
use refusal::Refusal;
use settlement::terms::{Kind, Line, Portfolio, ResourceHour, Slot, Terms};
use share::share_out;

// What a text asks to be settled: an hour, and who takes part in its plan.
#[derive(Clone, Copy)]
pub struct Settling {
    pub hour: u32,
    pub kind: Kind,
    pub month: u32,
    pub terms: Terms,
    pub marks: [u8; 16],
}

// What each buyer purchased in the hour, in kWh, the retailer first.
// Stays: purchases are copied out of a request, and `ArrayVec` is no plain value.
#[derive(Clone, Copy)]
pub struct Purchases {
    pub bought: [u32; 8],
    pub buyers: usize,
}

impl Settling {
    // The line of the hour on a day of a class, both reductions over one source.
    pub fn line<S: BaselineSource>(
        &self,
        source: &S,
        customers: u32,
        day: u32,
        class: DayClass,
    ) -> Result<Line, Refusal>
        ensures value { result ≡ settled (S.meaning source.now) (S.meaning source.now) self.now.marks (record { kind = self.now.kind; customers = customers }) (record { month = self.now.month; class = class; day = day; hour = self.now.hour }) self.now.terms }
    {
        let asked = ResourceHour {
            portfolio: Portfolio {
                kind: self.kind,
                customers,
            },
            slot: Slot {
                month: self.month,
                class,
                day,
                hour: self.hour,
            },
            terms: self.terms,
        };
        asked.settle(source, source, &self.marks)
    }
}

impl Purchases {
    // Each buyer's share of an amount of won, by the purchases.
    pub fn shares_of(&self, amount: i64) -> Option<[i64; 16]>
        ensures value { result ≡ shared amount self.now.bought }
    {
        share_out(amount, &self.bought)
    }
}
