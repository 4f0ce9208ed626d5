// The source interface: three questions, which change nothing.
ghost use Rattle.std.specs.Prelude.{◌≡◌, ◌≤◌, false, ◌&&◌, IfSome, IfOk, Err};
ghost use Rattle.load.specs.Meaning.{in_range, is_hour};
ghost use Rattle.baseline.specs.Meaning.{SourceMeaning, WithinBounds};

use load::places::CustomerHour;
use refusal::Cause;

// The least and the greatest baseline, in Wh.
pub(crate) const LOWEST: i32 = -40_000_000;

pub(crate) const HIGHEST: i32 = 40_000_000;

// Metered loads, profiles and baselines of some customers, in Wh.
pub trait BaselineSource {
    // Stays: the clauses of the interface name their bounds in full for those who implement it.
    ghost meaning: { Self → SourceMeaning };

    // The metered load of a customer on a day in an hour, or none if it is missing.
    fn metered(&self, asked: CustomerHour) -> Option<u32>
        ensures value { result ≡ (meaning self.now).metered asked.customer asked.day asked.hour }
        ensures bounded { IfSome result (λ v. v ≤ 20000000) };

    // The mean load in hour `at` over the days that are chosen for the hour asked.
    fn profile(&self, asked: CustomerHour, at: u32) -> Result<u32, Cause>
        ensures value { result ≡ (meaning self.now).profile asked.customer asked.day asked.hour at }
        ensures bounded { IfOk result (λ v. v ≤ 20000000) }
        ensures outside { (in_range asked.customer asked.day asked.hour && is_hour at) ≡ false → result ≡ Err Cause.OutOfRange };

    // The baseline of a customer on a day in an hour.
    fn baseline(&self, asked: CustomerHour) -> Result<i32, Cause>
        ensures value { result ≡ (meaning self.now).baseline asked.customer asked.day asked.hour }
        ensures bounded { IfOk result WithinBounds }
        ensures outside { in_range asked.customer asked.day asked.hour ≡ false → result ≡ Err Cause.OutOfRange };
}

// A source that is lent, so that several layers can stand over one.
impl<S: BaselineSource> BaselineSource for &S {
    ghost meaning = { λ x. S.BaselineSource.meaning x.now };

    fn metered(&self, asked: CustomerHour) -> Option<u32> {
        S::metered(*self, asked)
    }

    fn profile(&self, asked: CustomerHour, at: u32) -> Result<u32, Cause> {
        S::profile(*self, asked, at)
    }

    fn baseline(&self, asked: CustomerHour) -> Result<i32, Cause> {
        S::baseline(*self, asked)
    }
}
