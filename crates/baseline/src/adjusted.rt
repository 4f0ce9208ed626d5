// The adjusting layer: baselines brought to the load in the hours before each day's first order.
ghost use Rattle.std.specs.Prelude.{◌≡◌, ◌+◌, ◌≤◌, pos, negsuc, ◌+ℤ◌, ◌-ℤ◌, ◌*ℤ◌, ◌≤ℤ◌, if◌then◌else◌, nat_le, Some, None};
ghost use Rattle.baseline.specs.Meaning.{WithinBounds};
ghost use Rattle.baseline.specs.Sources.{start_on, rounded_third, clamped, gap_on, brought_by, adjusted_source};

use crate::source::{BaselineSource, HIGHEST, LOWEST};
use load::places::{CustomerHour, byte_of};
use refusal::Cause;

// An order that starts before this hour adjusts nothing.
const FIRST_ADJUSTED: u32 = 5;

// A source below, and a byte for each day: the hour in which its first order starts, 0 for none.
// Stays: a table is handed in as bytes, and each byte has a meaning.
#[derive(Drop)]
pub struct Adjusted<'a, S> {
    pub below: S,
    pub starts: &'a [u8],
}

// The hour in which the first order of a day starts, if it adjusts.
fn adjusting_start(starts: &[u8], day: u32) -> Option<u32>
    ensures value { result ≡ (if nat_le 5 (start_on starts.now day) then Some (start_on starts.now day) else None) }
{
    byte_of(starts, day)
        .map(u32::from)
        .filter(|start| *start >= FIRST_ADJUSTED)
}

// The metered loads of three hours less their profiles, in Wh.
#[derive(Clone, Copy)]
struct Gap {
    wh: i32,
    ghost low: { negsuc 59999999 ≤ℤ wh },
    ghost high: { wh ≤ℤ pos 60000000 },
}

impl Gap {
    fn between(metered: u32, profiles: u32) -> Gap
        requires metered { metered ≤ 60000000 }
        requires profiles { profiles ≤ 60000000 }
        ensures value { result.wh ≡ pos metered -ℤ pos profiles }
    {
        Gap {
            wh: metered as i32 - profiles as i32,
        }
    }

    // A third of the gap: one half is added, then the fraction goes down, below nought too.
    fn third(self) -> i32
        ensures value { result ≡ rounded_third self.wh }
        ensures low { negsuc 19999999 ≤ℤ result }
        ensures high { result ≤ℤ pos 20000000 }
    {
        (self.wh * 2 + 3).div_euclid(6)
    }

    // A baseline with the rounded third added, brought within the bounds.
    fn added_to(self, baseline: i32) -> i32
        requires baseline { WithinBounds baseline }
        ensures value { result ≡ clamped (baseline +ℤ rounded_third self.wh) }
        ensures bounded { WithinBounds result }
    {
        (baseline + self.third()).clamp(LOWEST, HIGHEST)
    }
}

impl<S: BaselineSource> Adjusted<'_, S> {
    // A customer's baseline of a day, adjusted if every load and profile before the day's first order exists.
    fn brought(&self, asked: CustomerHour, baseline: i32) -> i32
        requires baseline { WithinBounds baseline }
        ensures value { result ≡ brought_by baseline (gap_on (S.meaning self.now.below) self.now.starts.now asked.customer asked.day) }
        ensures bounded { WithinBounds result }
    {
        // Stays: each load and profile by `let .. else`.
        let Some(start) = adjusting_start(self.starts, asked.day) else {
            return baseline;
        };
        let Some(load_a) = self.below.metered(asked.in_hour(start - 4)) else {
            return baseline;
        };
        let Some(load_b) = self.below.metered(asked.in_hour(start - 3)) else {
            return baseline;
        };
        let Some(load_c) = self.below.metered(asked.in_hour(start - 2)) else {
            return baseline;
        };
        let Ok(profile_a) = self.below.profile(asked.in_hour(start), start - 4) else {
            return baseline;
        };
        let Ok(profile_b) = self.below.profile(asked.in_hour(start), start - 3) else {
            return baseline;
        };
        let Ok(profile_c) = self.below.profile(asked.in_hour(start), start - 2) else {
            return baseline;
        };
        let gap = Gap::between(load_a + load_b + load_c, profile_a + profile_b + profile_c);
        gap.added_to(baseline)
    }
}

impl<S: BaselineSource> BaselineSource for Adjusted<'_, S> {
    ghost meaning = { λ x. adjusted_source x.starts.now (S.BaselineSource.meaning x.below) };

    fn metered(&self, asked: CustomerHour) -> Option<u32> {
        self.below.metered(asked)
    }

    fn profile(&self, asked: CustomerHour, at: u32) -> Result<u32, Cause> {
        self.below.profile(asked, at)
    }

    fn baseline(&self, asked: CustomerHour) -> Result<i32, Cause> {
        let baseline = self.below.baseline(asked)?;
        Ok(self.brought(asked, baseline))
    }
}
