// The register record: a meter's running count at the end of each hour.
ghost use Rattle.std.specs.Prelude.{◌≡◌};
ghost use Rattle.load.specs.Records.{counted, register_record};

use crate::loads::{DayClass, LoadRecord};
use crate::places::{CustomerHour, HOURS, class_in, is_customer_day, plausible_load};

// A customer has one reading before the first hour, and one at the end of each.
const READINGS: u32 = 2305;

// A register goes round at this many Wh.
const ROUND: u32 = 1_000_000_000;

// Readings in Wh, customer by customer, and a byte for the class of each day.
#[derive(Clone, Copy)]
pub struct RegisterRecord<'a> {
    pub readings: &'a [u32],
    pub classes: &'a [u8],
}

// What a register counted between two readings.
fn counted_between(before: Option<u32>, after: Option<u32>) -> Option<u32>
    ensures value { result ≡ counted before after }
{
    let before = before?;
    let after = after?;
    if before < ROUND && after < ROUND {
        Some((after + ROUND - before) % ROUND)
    } else {
        None
    }
}

impl LoadRecord for RegisterRecord<'_> {
    ghost meaning = { λ x. register_record x.readings.now x.classes.now };

    fn load(&self, asked: CustomerHour) -> Option<u32> {
        if !asked.is_in_range() {
            return None;
        }
        let place = (asked.customer * READINGS + asked.day * HOURS + asked.hour) as usize;
        let before = self.readings.get(place - 1).copied();
        let after = self.readings.get(place).copied();
        plausible_load(counted_between(before, after))
    }

    // Stays: the record interface has two implementations; both only call what is shared.
    fn class(&self, day: u32) -> DayClass {
        class_in(self.classes, day)
    }

    fn stands(&self, customer: u32, day: u32) -> bool {
        is_customer_day(customer, day)
    }
}
