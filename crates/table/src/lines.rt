// The two sorts of lines.
ghost use Rattle.std.specs.Prelude.{◌≡◌, ℕ, ◌^◌, ◌≤◌, ℤ, ◌+ℤ◌, unsigned_abs};
ghost use Rattle.table.specs.Lines.{no_line, no_charge, paid_of, fined_of};

use settlement::terms::Line;

// What stands at the place of a resource in an hour.
pub type ResourceLine = Option<Line>;

// What stands at the place of a buyer in an hour, in won.
#[derive(Clone, Copy, PartialEq, Eq, Debug, Default)]
pub struct BuyerLine {
    pub charge: i64,
    pub refund: i64,
}

// A line has an amount that is due and an amount that goes back, in won.
pub trait Amounts: Copy {
    ghost empty: { Self };

    ghost due: { Self → ℤ };

    ghost back: { Self → ℤ };

    // no amount is further from nought
    ghost most: { ℕ };

    // The line of an empty place.
    // Stays: the trait names the empty line beside it for proofs, and `Default` has no such member.
    fn empty() -> Self
        ensures value { result ≡ empty };

    // The amount that is due.
    fn due(&self) -> i64
        ensures value { result ≡ due self.now }
        ensures bounded { unsigned_abs result ≤ most };

    // The amount that goes back.
    fn back(&self) -> i64
        ensures value { result ≡ back self.now }
        ensures bounded { unsigned_abs result ≤ most };
}

// The plan pay and the order pay of a line.
fn pay(line: Line) -> i64
    ensures value { result ≡ line.plan_pay +ℤ line.order_pay }
    ensures bounded { unsigned_abs result ≤ 2 ^ 32 }
{
    i64::from(line.plan_pay) + i64::from(line.order_pay)
}

// A resource is due its plan pay and order pay, and its fine goes back.
impl Amounts for ResourceLine {
    ghost empty = { no_line };

    ghost due = { paid_of };

    ghost back = { fined_of };

    ghost most = { 2 ^ 32 };

    fn empty() -> ResourceLine {
        None
    }

    fn due(&self) -> i64 {
        self.map_or(0, pay)
    }

    fn back(&self) -> i64 {
        self.map_or(0, |line| i64::from(line.fined))
    }
}

// A buyer is due its charge, and its refund goes back.
impl Amounts for BuyerLine {
    ghost empty = { no_charge };

    ghost due = { λ line. line.charge };

    ghost back = { λ line. line.refund };

    ghost most = { 2 ^ 63 };

    fn empty() -> BuyerLine {
        BuyerLine::default()
    }

    fn due(&self) -> i64 {
        self.charge
    }

    fn back(&self) -> i64 {
        self.refund
    }
}
