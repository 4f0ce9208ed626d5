// A correction slip: handed out by a reopening, spent by a finishing, and never forgotten.
ghost use Rattle.std.specs.Prelude.{◌≡◌, true, false};

use crate::month_hour::MonthHour;
use refusal::Refusal;

// The book's number, and the hour that is in correction.
pub struct Slip {
    pub(crate) number: u32,
    pub(crate) at: MonthHour,
    // Stays: a slip is no plain value, and may be let go only once it is spent.
    spent: bool,
}

// A finishing refused, with the slip handed back.
pub struct RefusedSlip {
    pub refusal: Refusal,
    pub slip: Slip,
}

impl Slip {
    // A slip as it is handed out.
    pub(crate) fn new(number: u32, at: MonthHour) -> Slip
        ensures value { result ≡ record { number = number; at = at; spent = false } }
    {
        Slip {
            number,
            at,
            spent: false,
        }
    }

    // Spends the slip.
    pub(crate) fn spend(mut self) {
        self.spent = true;
    }
}

// Only a spent slip may be let go.
impl Drop for Slip {
    fn drop(self)
        requires { self.spent ≡ true }
    {
        let Slip {
            number: _,
            at: _,
            spent: _,
        } = self;
    }
}
