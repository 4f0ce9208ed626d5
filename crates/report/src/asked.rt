// What a request holds, for those who report on it.
ghost use Rattle.std.specs.Prelude.{◌≡◌, ◌≤◌};
ghost use Rattle.std.specs.Option.{unwrap_or};

use crate::hour::{Purchases, Settling};
use crate::meter::Meter;
use crate::request::Request;
use baseline::adjusted::Adjusted;
use baseline::method::Method;
use baseline::ranked::Ranked;
use load::interval::IntervalRecord;
use load::left_out::LeftOut;
use load::loads::LoadRecord;
use load::register::RegisterRecord;

impl Request {
    // The day that is reported on.
    pub fn day(&self) -> u32
        ensures value { result ≡ unwrap_or self.now.day 0 }
    {
        self.day.unwrap_or(0)
    }

    // How many customers are reported on.
    pub fn customers(&self) -> u32
        ensures value { result ≡ self.now.customers }
        ensures bounded { result ≤ 16 }
    {
        self.customers
    }

    // Whether the text has loads or readings, if it has either.
    pub fn meter(&self) -> Option<Meter>
        ensures value { result ≡ self.now.meter }
    {
        self.meter
    }

    // The hour to be settled, if the text names one.
    pub fn settling(&self) -> Option<Settling>
        ensures value { result ≡ self.now.settling }
    {
        self.settling
    }

    // What the buyers purchased in that hour, if the text says so.
    pub fn purchases(&self) -> Option<Purchases>
        ensures value { result ≡ self.now.purchases }
    {
        self.purchases
    }

    // The numbers as hourly loads.
    pub fn intervals(&self) -> IntervalRecord<'_>
        ensures loads { result.loads.now ≡ self.now.numbers }
        ensures classes { result.classes.now ≡ self.now.classes }
    {
        IntervalRecord {
            loads: &self.numbers,
            classes: &self.classes,
        }
    }

    // The numbers as register readings.
    pub fn registers(&self) -> RegisterRecord<'_>
        ensures readings { result.readings.now ≡ self.now.numbers }
        ensures classes { result.classes.now ≡ self.now.classes }
    {
        RegisterRecord {
            readings: &self.numbers,
            classes: &self.classes,
        }
    }

    // The usual loads by a method over a record: left-out days do not stand, and baselines are adjusted on days with an order.
    pub fn source<R: LoadRecord>(
        &self,
        loads: R,
        method: Method,
    ) -> Adjusted<'_, Ranked<LeftOut<'_, R>>>
        ensures starts { result.starts.now ≡ self.now.starts }
        ensures chooses { result.below.method ≡ method }
        ensures left { result.below.loads.marks.now ≡ self.now.left_out }
        ensures holds { result.below.loads.below ≡ loads }
    {
        let standing = LeftOut {
            below: loads,
            marks: &self.left_out,
        };
        Adjusted {
            below: Ranked::new(standing, method),
            starts: &self.starts,
        }
    }
}
