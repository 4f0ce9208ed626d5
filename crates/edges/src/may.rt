// A book of May with its two lists, and what the cases settle in it.
use baseline::filed::FiledSource;
use book::month_hour::MonthHour;
use book::open::Opening;
use book::register::Registration;
use book::settle::Settling;
use refusal::Refusal;
use settlement::terms::Terms;
use table::lines::BuyerLine;

// An hour of the month.
pub fn on(day: u32, hour: u32) -> MonthHour {
    MonthHour { day, hour }
}

// What lies beyond the measure.
pub const BEYOND: BuyerLine = BuyerLine {
    charge: 7,
    refund: -7,
};

// A resource of kind 1 with one customer.
pub const STANDARD: Registration = Registration {
    kind: 1,
    aggregator: 12,
    customers: 1,
};

// An opening of May, with workdays alone, one resource and three buyers.
pub const MAY: Opening<'static> = Opening {
    number: 7,
    month: 5,
    classes: &[0; 31],
    first_day: 5,
    buyers: 3,
    resources: &[STANDARD],
};

// Neither plan nor order.
pub const NOTHING: Terms = Terms {
    plan: 0,
    order: 0,
    emergency: false,
    test: false,
    smp: 0,
    mgp: 0,
};

// A plan of 1,000,000 Wh at 0.10 won per kWh.
pub const PLANNED: Terms = Terms {
    plan: 1_000_000,
    smp: 10,
    ..NOTHING
};

// What each customer cuts in every hour by the scheduled and by the mandatory source, in Wh.
#[derive(Clone, Copy)]
pub struct Cuts {
    pub scheduled: i32,
    pub mandatory: i32,
}

// What is cut where nothing is.
pub const NO_CUTS: Cuts = Cuts {
    scheduled: 0,
    mandatory: 0,
};

// A desk for 31 days, one resource and three buyers, each list a place longer than the measure.
pub type Desk = desk::Desk<745, 2233>;

// A book not yet opened.
pub fn blank() -> Desk {
    Desk::new(None, BEYOND)
}

// A book of May whose resource has so many customers.
pub fn opened(customers: u32) -> Result<Desk, Refusal> {
    let mut desk = blank();
    desk.open(Opening {
        resources: &[Registration {
            customers,
            ..STANDARD
        }],
        ..MAY
    })?;
    Ok(desk)
}

// A book of May with hour 11 of day 1 told, settled for 100 won and allotted, and hour 12 settled and not told.
pub fn allotted() -> Result<Desk, Refusal> {
    let mut desk = opened(1)?;
    let cuts = Cuts {
        scheduled: 1_000_000,
        ..NO_CUTS
    };
    desk.tell(on(1, 11), 3, &[1, 1])?;
    settle(&mut desk, 0, on(1, 11), PLANNED, cuts)?;
    desk.allot(on(1, 11))?;
    settle(&mut desk, 0, on(1, 12), PLANNED, cuts)?;
    Ok(desk)
}

// Settles an hour over two filed sources in which every baseline is the same and every load is 0.
pub fn settle(
    desk: &mut Desk,
    resource: u32,
    at: MonthHour,
    terms: Terms,
    cuts: Cuts,
) -> Result<(), Refusal> {
    let loads = [0; 4608];
    desk.settle(&Settling {
        resource,
        at,
        terms,
        marks: &[1, 1],
        scheduled: &FiledSource {
            baselines: &[cuts.scheduled; 4608],
            loads: &loads,
        },
        mandatory: &FiledSource {
            baselines: &[cuts.mandatory; 4608],
            loads: &loads,
        },
    })
}

// Settles hour 11 of day 1 over a source in which customer k cuts 10 to the power k, up to four customers, with marks.
pub fn settle_marked(desk: &mut Desk, terms: Terms, marks: &[u8]) -> Result<(), Refusal> {
    let source = FiledSource {
        baselines: &tens(),
        loads: &[0; 9216],
    };
    desk.settle(&Settling {
        resource: 0,
        at: on(1, 11),
        terms,
        marks,
        scheduled: &source,
        mandatory: &source,
    })
}

// Baselines of four customers: 1, 10, 100 and 1,000 in every hour.
fn tens() -> [i32; 9216] {
    let mut baselines = [0; 9216];
    for (customer, cut) in baselines.chunks_exact_mut(2304).zip([1, 10, 100, 1_000]) {
        customer.fill(cut);
    }
    baselines
}
