// A book of May with one resource and three buyers.
use crate::corrections::finish;
use baseline::filed::FiledSource;
use book::book::Book;
use book::month_hour::MonthHour;
use book::open::Opening;
use book::register::Registration;
use book::settle::Settling;
use refusal::Refusal;
use settlement::terms::{Line, Terms};
use table::lines::{BuyerLine, ResourceLine};

// A plan of 1,000,000 Wh at 120.50 won per kWh.
pub(crate) const PLANNED: Terms = Terms {
    plan: 1_000_000,
    order: 0,
    emergency: false,
    test: false,
    smp: 12_050,
    mgp: 0,
};

// What stood in the lists before they were handed in.
pub(crate) const OLD: BuyerLine = BuyerLine {
    charge: i64::MIN,
    refund: i64::MAX,
};

pub(crate) const OLD_LINE: ResourceLine = Some(Line {
    plan: 1,
    order: 2,
    sr: -3,
    dr: 4,
    dlr: 5,
    slr: 6,
    plan_pay: i32::MIN,
    order_pay: i32::MAX,
    fined: 7,
});

// A baseline of 2,000,000 Wh and a load of 1,200,000 Wh, filed for days 0 to 8.
const FILED: FiledSource = FiledSource {
    baselines: &[2_000_000; 216],
    loads: &[1_200_000; 216],
};

// An hour of the month.
pub(crate) fn on(day: u32, hour: u32) -> MonthHour {
    MonthHour { day, hour }
}

// A settling by those.
pub(crate) fn filed(
    resource: u32,
    at: MonthHour,
    terms: Terms,
    marks: &[u8],
) -> Settling<'_, FiledSource<'static>, FiledSource<'static>> {
    Settling {
        resource,
        at,
        terms,
        marks,
        scheduled: &FILED,
        mandatory: &FILED,
    }
}

// A desk for 31 days, one resource and three buyers, each list a place longer than the measure.
pub(crate) type Desk = desk::Desk<745, 2233>;

// A book not yet opened, with old lists.
pub(crate) fn blank() -> Desk {
    Desk::new(OLD_LINE, OLD)
}

// Opens the book, tells, settles and allots hour 11 of day 1, and tells and settles hour 12.
pub(crate) fn prepare(desk: &mut Desk) -> Result<(), Refusal> {
    desk.open(Opening {
        number: 7,
        month: 5,
        classes: &[0; 31],
        first_day: 5,
        buyers: 3,
        resources: &[Registration {
            kind: 1,
            aggregator: 12,
            customers: 1,
        }],
    })?;
    desk.tell(on(1, 11), 3, &[1, 1])?;
    desk.settle(&filed(0, on(1, 11), PLANNED, &[1]))?;
    desk.allot(on(1, 11))?;
    desk.tell(on(1, 12), 150_000_000, &[150_000_000, 0])?;
    desk.settle(&filed(0, on(1, 12), PLANNED, &[1]))
}

// A desk so prepared.
pub(crate) fn prepared() -> Result<Desk, Refusal> {
    let mut desk = blank();
    prepare(&mut desk)?;
    Ok(desk)
}

// Reopens an hour, and finishes it at once.
pub(crate) fn reopen(
    book: &mut Book,
    lines: &[ResourceLine],
    charges: &mut [BuyerLine],
    at: MonthHour,
) -> Result<(), Refusal> {
    let slip = book.reopen(lines, charges, at)?;
    finish(book, lines, charges, slip);
    Ok(())
}
