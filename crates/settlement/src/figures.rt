// The figures of a line: loads in Wh, prices in hundredths of a won per kWh, money in won.
ghost use Rattle.std.specs.Prelude.{◌≡◌, ◌≤◌, min};
ghost use Rattle.settlement.specs.Figures.{at_least_nought, dlr_of, fined_of, line_of, order_pay_of, plan_pay_of, slr_of, worth as its_worth};

use crate::bounds::{LimitedTerms, Load, Reduction};
use crate::terms::{Line, Terms};

// What a price in hundredths of a won per kWh is divided by, for won per Wh.
const PRICE_UNIT: u64 = 100_000;

// Without an emergency at most six fifths of an order count.
const COUNTED_FIFTHS: u64 = 6;

impl Reduction {
    // What was reduced, at least 0.
    fn reduced(self) -> Load
        ensures value { result ≡ at_least_nought self }
    {
        Load {
            wh: self.wh.max(0) as u64,
        }
    }
}

impl Load {
    // The load, at most a count of Wh.
    fn at_most(self, wh: u64) -> Load
        ensures value { result ≡ min self wh }
    {
        Load {
            wh: self.wh.min(wh),
        }
    }

    // What the load is worth at a price, the fraction dropped.
    fn worth(self, price: u32) -> u32
        requires { price ≤ 200000 }
        ensures value { result ≡ its_worth self price }
        ensures bounded { result ≤ 1920000000 }
    {
        (self.wh * u64::from(price) / PRICE_UNIT) as u32
    }
}

impl LimitedTerms {
    // DLR: the ordered reduction that counts.
    fn dlr(self, dr: Reduction) -> Load
        ensures value { result ≡ dlr_of self.terms dr }
    {
        if self.terms.emergency {
            dr.reduced()
        } else {
            dr.reduced()
                .at_most(u64::from(self.terms.order) * COUNTED_FIFTHS / 5)
        }
    }

    // SLR: the scheduled reduction that counts, after DLR.
    fn slr(self, sr: Reduction, dlr: Load) -> Load
        ensures value { result ≡ slr_of self.terms sr dlr }
    {
        let rest = (sr.wh - dlr.wh as i64).max(0) as u64;
        Load {
            wh: rest.min(u64::from(self.terms.plan)),
        }
    }

    // What is paid for the scheduled reduction.
    fn plan_pay(self, slr: Load) -> i32
        ensures value { result ≡ plan_pay_of self.terms slr }
    {
        slr.worth(self.terms.smp) as i32
    }

    // What is paid for the ordered reduction: a test is paid at SMP.
    fn order_pay(self, dlr: Load) -> i32
        ensures value { result ≡ order_pay_of self.terms dlr }
    {
        let Terms { test, smp, mgp, .. } = self.terms;
        let price = if test { smp } else { mgp };
        dlr.worth(price) as i32
    }

    // The fine for what SR lacks of the plan.
    fn fined(self, sr: Reduction) -> u32
        ensures value { result ≡ fined_of self.terms sr }
    {
        let plan = u64::from(self.terms.plan);
        let lacking = Load {
            wh: plan - sr.reduced().at_most(plan).wh,
        };
        lacking.worth(self.terms.smp)
    }

    // The line of the terms and the two reductions.
    pub(crate) fn line(self, sr: Reduction, dr: Reduction) -> Line
        ensures value { result ≡ line_of self.terms sr dr }
    {
        let dlr = self.dlr(dr);
        let slr = self.slr(sr, dlr);
        Line {
            plan: self.terms.plan,
            order: self.terms.order,
            sr: sr.wh,
            dr: dr.wh,
            dlr: dlr.wh,
            slr: slr.wh,
            plan_pay: self.plan_pay(slr),
            order_pay: self.order_pay(dlr),
            fined: self.fined(sr),
        }
    }
}
