// The desks of this program, and its own calls on them.
ghost use Rattle.book.specs.Seen.{named_by};
ghost use Rattle.book.specs.Slips.{Finishes};
ghost use Rattle.desk.specs.Keeping.{on_desk, KeepsOthers};

use book::book::Book;
use book::month_hour::MonthHour;
use book::slip::Slip;
use refusal::Refusal;
use table::lines::BuyerLine;

// The lists are longer than the measure of 30 days, three resources and three buyers.
pub type Desk = desk::Desk<2170, 2165>;

// The hour of the calls over lists that are too short.
const FIRST: MonthHour = MonthHour { day: 1, hour: 1 };

// A desk with a book not yet opened.
pub fn blank() -> Desk {
    Desk::new(None, BuyerLine::default())
}

// Finishes an hour with a slip that is known to be good.
pub(crate) fn finish(desk: &mut Desk, slip: Slip)
    requires { Finishes (on_desk desk.old) (named_by slip) }
    ensures keeps { KeepsOthers (on_desk desk.old) (named_by slip) (on_desk desk.new) }
{
    desk.offer(slip).unwrap();
}

// Tells energies over no lines.
pub fn tell_short(desk: &mut Desk) -> Result<(), Refusal> {
    desk.book.tell(&[], &desk.charges, FIRST, 3, &[1, 1])
}

// Withdraws a line over no charges.
pub fn withdraw_short(desk: &mut Desk) -> Result<(), Refusal> {
    desk.book.withdraw(&mut desk.lines, &[], 0, FIRST)
}

// Allots an hour over no lines.
pub fn allot_short(desk: &mut Desk) -> Result<(), Refusal> {
    desk.book.allot(&[], &mut desk.charges, FIRST)
}
