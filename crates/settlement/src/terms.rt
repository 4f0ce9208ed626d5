// The plain values of a settling.
ghost use Rattle.std.specs.Prelude.{◌≡◌};

use load::loads::DayClass;
use load::places::CustomerHour;

// What kind of resource it is.
#[derive(Clone, Copy, PartialEq, Eq, Debug)]
pub enum Kind {
    Standard,
    SmallMedium,
    StandardHoliday,
    SmallMediumHoliday,
}

// The customers of one resource, numbered from 0, and its kind.
#[derive(Clone, Copy)]
pub struct Portfolio {
    pub kind: Kind,
    pub customers: u32,
}

// One hour of a month: the month, the class of the day, the day by its number in the sources, and the hour.
#[derive(Clone, Copy)]
pub struct Slot {
    pub month: u32,
    pub class: DayClass,
    pub day: u32,
    pub hour: u32,
}

impl Slot {
    // The hour of a customer that a source is asked about.
    pub fn of(self, customer: u32) -> CustomerHour
        ensures customer { result.customer ≡ customer }
        ensures day { result.day ≡ self.day }
        ensures hour { result.hour ≡ self.hour }
    {
        CustomerHour {
            customer,
            day: self.day,
            hour: self.hour,
        }
    }
}

// What an hour is settled by: plan and order in Wh, 0 for none; SMP and MGP in hundredths of a won per kWh.
#[derive(Clone, Copy)]
pub struct Terms {
    pub plan: u32,
    pub order: u32,
    // Stays: the two marks are each a yes or no of the order, and neither tells what another field holds.
    pub emergency: bool,
    pub test: bool,
    pub smp: u32,
    pub mgp: u32,
}

// One hour of one resource, and what it is settled by.
#[derive(Clone, Copy)]
pub struct ResourceHour {
    pub portfolio: Portfolio,
    pub slot: Slot,
    pub terms: Terms,
}

// The figures of one resource in one hour: SR, DR, DLR and SLR in Wh, pay and fine in won.
#[derive(Clone, Copy, PartialEq, Eq, Debug)]
pub struct Line {
    pub plan: u32,
    pub order: u32,
    pub sr: i64,
    pub dr: i64,
    pub dlr: u64,
    pub slr: u64,
    pub plan_pay: i32,
    pub order_pay: i32,
    pub fined: u32,
}
