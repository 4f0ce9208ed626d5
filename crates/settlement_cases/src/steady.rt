// A source with the same figures on every day, in every hour and for every customer that has any.
ghost use Rattle.settlement_cases.specs.Steady.{steady_meaning};

use baseline::source::BaselineSource;
use load::places::{CustomerHour, is_hour};
use refusal::Cause;

// The baseline in Wh and how many customers have it, the metered load in Wh and how many have that.
#[derive(Clone, Copy)]
pub struct Steady {
    pub baseline: i32,
    pub with_baseline: u32,
    pub load: u32,
    pub with_load: u32,
}

impl BaselineSource for Steady {
    ghost meaning = { steady_meaning };

    fn metered(&self, asked: CustomerHour) -> Option<u32> {
        if asked.customer < self.with_load && self.load <= 20_000_000 {
            Some(self.load)
        } else {
            None
        }
    }

    fn profile(&self, asked: CustomerHour, at: u32) -> Result<u32, Cause> {
        if asked.is_in_range() && is_hour(at) {
            Err(Cause::TooFewDays)
        } else {
            Err(Cause::OutOfRange)
        }
    }

    fn baseline(&self, asked: CustomerHour) -> Result<i32, Cause> {
        if !asked.is_in_range() {
            return Err(Cause::OutOfRange);
        }
        if asked.customer < self.with_baseline
            && (-40_000_000..=40_000_000).contains(&self.baseline)
        {
            Ok(self.baseline)
        } else {
            Err(Cause::TooFewDays)
        }
    }
}
