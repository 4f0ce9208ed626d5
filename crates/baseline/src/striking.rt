// How reference days rank, and which of them are struck.
ghost use Rattle.std.specs.Prelude.{◌≡◌, ◌≤◌, length};
ghost use Rattle.baseline.specs.Striking.{rank, stays, unstruck};

use crate::method::Method;
use crate::reference::{Reference, References};

// How many of the days rank lower than this one.
fn rank_of(days: &[Reference], this: &Reference) -> usize
    ensures value { result ≡ rank days.now this.now }
{
    // Stays: `filter(..).count()` makes the ranked source a fifth slower, and over `map(..).sum()` it stays open that the sum fits.
    let mut lower_ones = 0;
    for x in days {
        lower_ones += usize::from(*x < *this);
    }
    lower_ones
}

impl Method {
    // Whether this day is left of the days once the `low` lowest and the `high` highest are struck.
    fn keeps(&self, days: &[Reference], this: &Reference) -> bool
        ensures value { result ≡ stays self.now.low self.now.high days.now this.now }
    {
        let rank = rank_of(days, this);
        self.low <= rank && rank < days.len().saturating_sub(self.high)
    }

    // The days that are left once the `low` lowest and the `high` highest are struck.
    pub(crate) fn left_of(&self, days: &References) -> References
        ensures value { result.items ≡ unstruck self.now.low self.now.high days.now.items }
    {
        let mut left = References::new();
        for x in days.iter() {
            if self.keeps(days, x) {
                left.push(*x);
            }
        }
        left
    }
}
