// The filed source: baselines and loads handed in as two lists.
ghost use Rattle.std.specs.Prelude.{◌≡◌, IfOk};
ghost use Rattle.baseline.specs.Meaning.{WithinBounds};
ghost use Rattle.baseline.specs.Sources.{admissible, filed_source};

use crate::source::{BaselineSource, HIGHEST, LOWEST};
use load::places::{CustomerHour, is_hour};
use refusal::Cause;

// Baselines and loads in Wh, customer by customer, day by day and hour by hour.
#[derive(Clone, Copy)]
pub struct FiledSource<'a> {
    pub baselines: &'a [i32],
    pub loads: &'a [u32],
}

// A filed baseline, if it is within the bounds.
fn admissible_baseline(baseline: i32) -> Result<i32, Cause>
    ensures value { result ≡ admissible baseline }
    ensures bounded { IfOk result WithinBounds }
{
    if (LOWEST..=HIGHEST).contains(&baseline) {
        Ok(baseline)
    } else {
        Err(Cause::MissingLoad)
    }
}

impl BaselineSource for FiledSource<'_> {
    ghost meaning = { λ x. filed_source x.baselines.now x.loads.now };

    fn metered(&self, asked: CustomerHour) -> Option<u32> {
        asked.load_in(self.loads)
    }

    fn profile(&self, asked: CustomerHour, at: u32) -> Result<u32, Cause> {
        if asked.is_in_range() && is_hour(at) {
            Err(Cause::MissingLoad)
        } else {
            Err(Cause::OutOfRange)
        }
    }

    fn baseline(&self, asked: CustomerHour) -> Result<i32, Cause> {
        let place = asked.place().ok_or(Cause::OutOfRange)?;
        let baseline = self.baselines.get(place).ok_or(Cause::MissingLoad)?;
        admissible_baseline(*baseline)
    }
}
