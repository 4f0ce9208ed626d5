// The record interface: three questions, which change nothing.
ghost use Rattle.std.specs.Prelude.{◌≡◌, ◌≤◌, false, ◌&&◌, IfSome, None};
ghost use Rattle.load.specs.Meaning.{LoadMeaning, in_range, is_customer, is_day};

use crate::places::CustomerHour;

// The class of a day.
#[derive(Clone, Copy, PartialEq, Eq, Debug)]
pub enum DayClass {
    Workday,
    Holiday,
    Neither,
}

// Byte 0 is a workday, byte 1 a holiday, any other neither.
impl From<u8> for DayClass {
    ghost use Rattle.std.specs.Prelude.{◌≡◌, Some};
    ghost use Rattle.load.specs.Records.{class_of};

    ghost from_gives = { λ byte class. class ≡ class_of (Some byte) };

    fn from(byte: u8) -> DayClass {
        match byte {
            0 => DayClass::Workday,
            1 => DayClass::Holiday,
            _ => DayClass::Neither,
        }
    }
}

// What the meters of some customers measured, in Wh.
pub trait LoadRecord {
    // Stays: the clauses of the interface name their bounds in full for those who implement it.
    ghost meaning: { Self → LoadMeaning };

    // The load of a customer on a day in an hour, or none if it is missing.
    fn load(&self, asked: CustomerHour) -> Option<u32>
        ensures value { result ≡ (meaning self.now).load asked.customer asked.day asked.hour }
        ensures bounded { IfSome result (λ v. v ≤ 20000000) }
        ensures outside { in_range asked.customer asked.day asked.hour ≡ false → result ≡ None };

    // The class of a day.
    fn class(&self, day: u32) -> DayClass
        ensures value { result ≡ (meaning self.now).class day }
        ensures outside { is_day day ≡ false → result ≡ DayClass.Neither };

    // Stays: a day stands or not for all its hours, so customer and day make no hour.
    // Whether a day may be a reference day of a customer.
    fn stands(&self, customer: u32, day: u32) -> bool
        ensures value { result ≡ (meaning self.now).stands customer day }
        ensures outside { (is_customer customer && is_day day) ≡ false → result ≡ false };
}

// A record that is lent, so that several layers can stand over one.
impl<R: LoadRecord> LoadRecord for &R {
    ghost meaning = { λ x. R.LoadRecord.meaning x.now };

    fn load(&self, asked: CustomerHour) -> Option<u32> {
        R::load(*self, asked)
    }

    fn class(&self, day: u32) -> DayClass {
        R::class(*self, day)
    }

    fn stands(&self, customer: u32, day: u32) -> bool {
        R::stands(*self, customer, day)
    }
}
