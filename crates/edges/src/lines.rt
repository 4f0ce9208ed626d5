// The hour's line: order hours, limits, marks, worked figures and misreadings.
use crate::may::{
    Cuts, MAY, NO_CUTS, NOTHING, PLANNED, STANDARD, blank, on, opened, settle, settle_marked,
};
use crate::outcome::{Outcome, Tally};
use book::open::Opening;
use book::read::LineReading;
use book::register::Registration;
use refusal::{Cause, NoFigure, Refusal};
use settlement::terms::Terms;

// An order of 1,000,000 Wh, SMP 100 and MGP 150 won per kWh.
const ORDERED: Terms = Terms {
    order: 1_000_000,
    smp: 10_000,
    mgp: 15_000,
    ..NOTHING
};

// What an order comes to for a kind, in a month of one class.
fn order_in(kind: u32, month: u32, class: u8, hour: u32) -> Result<(), Refusal> {
    let days = if month == 6 { 30 } else { 31 };
    let classes = [class; 31];
    let mut desk = blank();
    desk.open(Opening {
        month,
        classes: &classes[..days],
        resources: &[Registration { kind, ..STANDARD }],
        ..MAY
    })?;
    settle(&mut desk, 0, on(1, hour), ORDERED, NO_CUTS)
}

// Orders at the edges of their hours.
pub fn order_hours(tally: &mut Tally) -> anyhow::Result<()> {
    let outside = Err(Refusal::OutsideOrderHours);
    for kind in 1..3 {
        for (what, class, hour, expected) in [
            ("order of kind 1 or 2, workday, hour 9", 0, 9, outside),
            ("order of kind 1 or 2, workday, hour 10", 0, 10, Ok(())),
            ("order of kind 1 or 2, workday, hour 12", 0, 12, Ok(())),
            ("order of kind 1 or 2, workday, hour 13", 0, 13, outside),
            ("order of kind 1 or 2, workday, hour 14", 0, 14, Ok(())),
            ("order of kind 1 or 2, workday, hour 20", 0, 20, Ok(())),
            ("order of kind 1 or 2, workday, hour 21", 0, 21, outside),
            ("order of kind 1 or 2, holiday, hour 12", 1, 12, outside),
        ] {
            tally.note(what, expected, order_in(kind, 5, class, hour))?;
        }
    }
    for kind in 3..5 {
        for (what, month, class, hour, expected) in [
            (
                "order of kind 3 or 4, March holiday, hour 10",
                3,
                1,
                10,
                outside,
            ),
            (
                "order of kind 3 or 4, March holiday, hour 11",
                3,
                1,
                11,
                Ok(()),
            ),
            (
                "order of kind 3 or 4, March holiday, hour 13",
                3,
                1,
                13,
                Ok(()),
            ),
            (
                "order of kind 3 or 4, March holiday, hour 17",
                3,
                1,
                17,
                Ok(()),
            ),
            (
                "order of kind 3 or 4, March holiday, hour 18",
                3,
                1,
                18,
                outside,
            ),
            (
                "order of kind 3 or 4, March workday, hour 11",
                3,
                0,
                11,
                outside,
            ),
            (
                "order of kind 3 or 4, June holiday, hour 11",
                6,
                1,
                11,
                outside,
            ),
            (
                "order of kind 3 or 4, June holiday, hour 17",
                6,
                1,
                17,
                outside,
            ),
        ] {
            tally.note(what, expected, order_in(kind, month, class, hour))?;
        }
    }
    Ok(())
}

// Terms at their limits and one past, and the order of the tests.
pub fn limits(tally: &mut Tally) -> anyhow::Result<()> {
    let mut desk = opened(1)?;
    let least = Terms { plan: 1, ..NOTHING };
    for (what, terms, expected) in [
        (
            "neither plan nor order",
            NOTHING,
            Err(Refusal::NeitherPlanNorOrder),
        ),
        (
            "neither plan nor order, SMP past its limit",
            Terms {
                smp: 200_001,
                ..NOTHING
            },
            Err(Refusal::NeitherPlanNorOrder),
        ),
        (
            "plan 640,000,000",
            Terms {
                plan: 640_000_000,
                ..NOTHING
            },
            Ok(()),
        ),
        (
            "plan 640,000,001",
            Terms {
                plan: 640_000_001,
                ..NOTHING
            },
            Err(Refusal::AboveLimit),
        ),
        (
            "order 500,000,000",
            Terms {
                order: 500_000_000,
                ..NOTHING
            },
            Ok(()),
        ),
        (
            "order 500,000,001",
            Terms {
                order: 500_000_001,
                ..NOTHING
            },
            Err(Refusal::AboveLimit),
        ),
        (
            "SMP 200,000",
            Terms {
                smp: 200_000,
                ..least
            },
            Ok(()),
        ),
        (
            "SMP 200,001",
            Terms {
                smp: 200_001,
                ..least
            },
            Err(Refusal::AboveLimit),
        ),
        (
            "MGP 200,000 without an order",
            Terms {
                mgp: 200_000,
                ..least
            },
            Ok(()),
        ),
        (
            "MGP 200,001 without an order",
            Terms {
                mgp: 200_001,
                ..least
            },
            Err(Refusal::AboveLimit),
        ),
    ] {
        tally.note(
            what,
            expected,
            settle(&mut desk, 0, on(1, 11), terms, NO_CUTS),
        )?;
    }
    Ok(())
}

// Customer 0 lacks the load.
const LACKING: NoFigure = NoFigure {
    customer: 0,
    cause: Cause::MissingLoad,
};

// Marks without an order, and which test comes first.
pub fn first_tests(tally: &mut Tally) -> anyhow::Result<()> {
    let mut desk = opened(1)?;
    let plan = Terms { plan: 1, ..NOTHING };
    let order = Terms {
        order: 1,
        ..NOTHING
    };
    let both = Terms { order: 1, ..plan };
    let emergency = Terms {
        emergency: true,
        ..plan
    };
    let past = Cuts {
        scheduled: 40_000_001,
        mandatory: 40_000_001,
    };
    let past_scheduled = Cuts {
        mandatory: 0,
        ..past
    };
    let past_mandatory = Cuts {
        scheduled: 0,
        ..past
    };
    for (what, terms, hour, cuts, expected) in [
        (
            "emergency mark without an order",
            emergency,
            11,
            NO_CUTS,
            Err(Refusal::MarkWithoutOrder),
        ),
        (
            "test mark without an order",
            Terms { test: true, ..plan },
            11,
            NO_CUTS,
            Err(Refusal::MarkWithoutOrder),
        ),
        (
            "23 comes before 25",
            Terms {
                test: true,
                ..emergency
            },
            13,
            past_scheduled,
            Err(Refusal::MarkWithoutOrder),
        ),
        (
            "22 comes before 23",
            Terms {
                plan: 640_000_001,
                ..emergency
            },
            11,
            NO_CUTS,
            Err(Refusal::AboveLimit),
        ),
        (
            "24 comes before 25",
            both,
            13,
            past_scheduled,
            Err(Refusal::OutsideOrderHours),
        ),
        ("a plan alone in hour 13", plan, 13, NO_CUTS, Ok(())),
        (
            "25 comes before 26",
            both,
            11,
            past,
            Err(Refusal::Scheduled(LACKING)),
        ),
        (
            "26 with a sound scheduled source",
            both,
            11,
            past_mandatory,
            Err(Refusal::Mandatory(LACKING)),
        ),
        (
            "without a plan the scheduled source is not asked",
            order,
            11,
            past_scheduled,
            Ok(()),
        ),
        (
            "without an order the mandatory source is not asked",
            plan,
            11,
            past_mandatory,
            Ok(()),
        ),
    ] {
        tally.note(
            what,
            expected,
            settle(&mut desk, 0, on(1, hour), terms, cuts),
        )?;
    }
    Ok(())
}

// A figure of a line.
#[derive(Clone, Copy)]
enum Figure {
    Dlr(u64),
    Slr(u64),
    Paid(i64),
    Fined(u32),
}

impl Figure {
    // The same figure as a line has it.
    fn in_line(self, line: LineReading) -> Figure {
        match self {
            Figure::Dlr(_) => Figure::Dlr(line.dlr),
            Figure::Slr(_) => Figure::Slr(line.slr),
            Figure::Paid(_) => Figure::Paid(line.paid),
            Figure::Fined(_) => Figure::Fined(line.fined),
        }
    }
}

impl From<Figure> for Outcome {
    fn from(figure: Figure) -> Outcome {
        Outcome::Number(match figure {
            Figure::Dlr(energy) | Figure::Slr(energy) => energy.into(),
            Figure::Paid(won) => won.into(),
            Figure::Fined(won) => won.into(),
        })
    }
}

// The worked figures of a line, and what is easily misread in it.
pub fn figures(tally: &mut Tally) -> anyhow::Result<()> {
    let cut = Cuts {
        scheduled: 0,
        mandatory: 1_300_000,
    };
    let both = Terms {
        plan: 500_000,
        smp: 12_050,
        ..ORDERED
    };
    let both_cut = Cuts {
        scheduled: 1_300_000,
        mandatory: 1_000_000,
    };
    let plan = Terms { order: 0, ..both };
    let hundred = Terms { plan: 100, ..plan };
    let million = Terms {
        plan: 1_000_000,
        ..plan
    };
    let raised = Cuts {
        scheduled: -5,
        ..NO_CUTS
    };
    let part = Cuts {
        scheduled: 800_000,
        ..NO_CUTS
    };
    for (what, terms, cuts, expected) in [
        (
            "order pay at six fifths",
            ORDERED,
            cut,
            Figure::Paid(180_000),
        ),
        (
            "order pay in an emergency",
            Terms {
                emergency: true,
                ..ORDERED
            },
            cut,
            Figure::Paid(195_000),
        ),
        (
            "order pay of a test at SMP",
            Terms {
                test: true,
                ..ORDERED
            },
            cut,
            Figure::Paid(120_000),
        ),
        (
            "DLR of a negative DR",
            ORDERED,
            Cuts {
                mandatory: -7,
                ..NO_CUTS
            },
            Figure::Dlr(0),
        ),
        (
            "six fifths of 4 with the fraction dropped",
            Terms {
                order: 4,
                smp: 0,
                ..ORDERED
            },
            Cuts {
                mandatory: 9,
                ..NO_CUTS
            },
            Figure::Dlr(4),
        ),
        ("SLR is SR less DLR", both, both_cut, Figure::Slr(300_000)),
        (
            "DLR is not taken off SR in the fine",
            both,
            both_cut,
            Figure::Fined(0),
        ),
        (
            "SLR is at most the plan",
            plan,
            Cuts {
                mandatory: 0,
                ..both_cut
            },
            Figure::Slr(500_000),
        ),
        (
            "paid of plan 100 and SR -5",
            hundred,
            raised,
            Figure::Paid(0),
        ),
        (
            "fined of plan 100 and SR -5",
            hundred,
            raised,
            Figure::Fined(12),
        ),
        (
            "fined of plan 1,000,000 and SR 800,000",
            million,
            part,
            Figure::Fined(24_100),
        ),
        (
            "paid of plan 1,000,000 and SR 800,000",
            million,
            part,
            Figure::Paid(96_400),
        ),
    ] {
        let mut desk = opened(1)?;
        settle(&mut desk, 0, on(1, 11), terms, cuts)?;
        let figure = desk
            .read_line(0, on(1, 11))
            .map(|line| expected.in_line(line));
        tally.note(what, Ok(expected), figure)?;
    }
    Ok(())
}

// Taking-part marks: customers 0 to 3 cut 1, 10, 100 and 1,000.
pub fn marks(tally: &mut Tally) -> anyhow::Result<()> {
    for (what, customers, marks, expected) in [
        ("all four take part", 4, [1, 1, 1, 1, 1], 1_111),
        (
            "marks 0, 2 and 255 take no part",
            4,
            [0, 2, 255, 1, 1],
            1_000,
        ),
        (
            "marks past the resource's customers are not read",
            2,
            [1, 1, 1, 1, 1],
            11,
        ),
    ] {
        let mut desk = opened(customers)?;
        settle_marked(&mut desk, PLANNED, &marks)?;
        let sr = desk.read_line(0, on(1, 11)).map(|line| line.sr);
        tally.note(what, Ok(expected), sr)?;
    }
    let mut desk = opened(4)?;
    settle_marked(&mut desk, PLANNED, &[1])?;
    let sr = desk.read_line(0, on(1, 11)).map(|line| line.sr);
    tally.note("a customer without a mark takes no part", Ok(1), sr)?;
    settle_marked(&mut desk, ORDERED, &[])?;
    let dr = desk.read_line(0, on(1, 11)).map(|line| line.dr);
    tally.note(
        "an order asks all customers whatever the marks",
        Ok(1_111),
        dr,
    )?;
    let mut desk = opened(5)?;
    let lacking = NoFigure {
        customer: 4,
        ..LACKING
    };
    let settled = settle_marked(&mut desk, PLANNED, &[1; 5]);
    tally.note(
        "the customer without a figure is named",
        Err(Refusal::Scheduled(lacking)),
        settled,
    )?;
    let settled = settle_marked(&mut desk, PLANNED, &[1; 4]);
    tally.note("one who takes no part is not asked", Ok(()), settled)
}
