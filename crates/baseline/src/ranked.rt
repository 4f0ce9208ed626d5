// The ranked source over any load record: the mean load of the reference days that are left.
ghost use Rattle.std.specs.Prelude.{◌≡◌, ◌*◌, ◌<◌, ◌≤◌, length, IfOk};
ghost use Rattle.baseline.specs.Profile.{rounded_mean, mean_load, profile_of};
ghost use Rattle.baseline.specs.Reference.{reference_on, reference_days};
ghost use Rattle.baseline.specs.Sources.{ranked_source};

use crate::method::Method;
use crate::reference::{Reference, References};
use crate::source::BaselineSource;
use load::loads::LoadRecord;
use load::places::{CustomerHour, is_hour};
use refusal::Cause;

// The rounded mean of at most ten loads that add up to `sum`: one half is added to the quotient, and the fraction dropped.
fn rounded_mean_of(sum: u64, count: u64) -> u32
    requires some { 0 < count }
    requires few { count ≤ 10 }
    requires bounded { sum ≤ 20000000 * count }
    ensures value { result ≡ rounded_mean sum count }
    ensures bounded { result ≤ 20000000 }
{
    ((2 * sum + count) / (2 * count)) as u32
}

// Loads, and the method by which reference days are chosen and struck.
#[derive(Drop)]
pub struct Ranked<R: LoadRecord> {
    loads: R,
    method: Method,
}

impl<R: LoadRecord> Ranked<R> {
    pub fn new(loads: R, method: Method) -> Self
        ensures holds { result.loads ≡ loads }
        ensures chooses { result.method ≡ method }
    {
        Ranked { loads, method }
    }

    // The day as a reference day, if it stands and has a load in the hour.
    fn reference_on(&self, asked: CustomerHour) -> Option<Reference>
        ensures value { result ≡ reference_on (R.meaning self.now.loads) asked.customer asked.hour asked.day }
    {
        if !self.loads.stands(asked.customer, asked.day) {
            return None;
        }
        let load = self.loads.load(asked)?;
        Some(Reference {
            day: asked.day,
            load,
        })
    }

    // The reference days before a day, newest first.
    #[tactic(auto, using(crate::proofs::Search::ahead_other, crate::proofs::Search::ahead_none, crate::proofs::Search::ahead_some))]
    fn reference_days(&self, asked: CustomerHour) -> References
        ensures value { result.items ≡ reference_days (R.meaning self.now.loads) self.now.method asked.customer asked.day asked.hour }
    {
        let mut days = References::new();
        let mut left = self.method.reach;
        // Stays: the search goes backward in a labelled loop, and is left from inside.
        'search: for past in (0..asked.day).rev() {
            if days.len() == self.method.n || left == 0 {
                break 'search;
            }
            if self.loads.class(past) == self.method.class {
                left -= 1;
                if let Some(reference) = self.reference_on(CustomerHour { day: past, ..asked }) {
                    days.push(reference);
                }
            }
        }
        days
    }

    // The rounded mean in an hour over some days.
    fn mean_over(&self, asked: CustomerHour, days: &References) -> Result<u32, Cause>
        requires some { 0 < length days.now.items }
        ensures value { result ≡ mean_load (R.meaning self.now.loads) asked.customer asked.hour days.now.items }
        ensures bounded { IfOk result (λ v. v ≤ 20000000) }
    {
        let mut sum = 0;
        for x in days.iter() {
            let on_day = CustomerHour {
                day: x.day,
                ..asked
            };
            let load = self.loads.load(on_day).ok_or(Cause::MissingLoad)?;
            sum += u64::from(load);
        }
        Ok(rounded_mean_of(sum, days.len() as u64))
    }
}

impl<R: LoadRecord> BaselineSource for Ranked<R> {
    ghost meaning = { λ x. ranked_source (R.LoadRecord.meaning x.loads) x.method };

    fn metered(&self, asked: CustomerHour) -> Option<u32> {
        self.loads.load(asked)
    }

    #[tactic(auto, using(crate::proofs::Left::count_left))]
    fn profile(&self, asked: CustomerHour, at: u32) -> Result<u32, Cause> {
        if !asked.is_in_range() || !is_hour(at) {
            return Err(Cause::OutOfRange);
        }
        let days = self.reference_days(asked);
        if days.len() < self.method.n {
            return Err(Cause::TooFewDays);
        }
        self.mean_over(asked.in_hour(at), &self.method.left_of(&days))
    }

    fn baseline(&self, asked: CustomerHour) -> Result<i32, Cause> {
        let mean = self.profile(asked, asked.hour)?;
        Ok(mean as i32)
    }
}
