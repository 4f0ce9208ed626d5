// The interval record: a load for each hour.
ghost use Rattle.load.specs.Records.{interval_record};

use crate::loads::{DayClass, LoadRecord};
use crate::places::{CustomerHour, class_in, is_customer_day};

// Loads in Wh, customer by customer, day by day and hour by hour, and a byte for the class of each day.
#[derive(Clone, Copy)]
pub struct IntervalRecord<'a> {
    pub loads: &'a [u32],
    pub classes: &'a [u8],
}

impl LoadRecord for IntervalRecord<'_> {
    ghost meaning = { λ x. interval_record x.loads.now x.classes.now };

    fn load(&self, asked: CustomerHour) -> Option<u32> {
        asked.load_in(self.loads)
    }

    // Stays: the record interface has two implementations; both only call what is shared.
    fn class(&self, day: u32) -> DayClass {
        class_in(self.classes, day)
    }

    fn stands(&self, customer: u32, day: u32) -> bool {
        is_customer_day(customer, day)
    }
}
