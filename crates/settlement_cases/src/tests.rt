// The cases: worked figures, and both sides of every edge.
use crate::steady::Steady;
use load::loads::DayClass;
use refusal::{Cause, NoFigure, Refusal};
use settlement::hours::takes_order;
use settlement::kinds::UnknownKind;
use settlement::terms::{Kind, Line, Portfolio, ResourceHour, Slot, Terms};
use std::test::Fail;

// Hour 11 of a workday in May, day 5 of the sources.
const SLOT: Slot = Slot {
    month: 5,
    class: DayClass::Workday,
    day: 5,
    hour: 11,
};

// Nothing planned, nothing ordered.
const NOTHING: Terms = Terms {
    plan: 0,
    order: 0,
    emergency: false,
    test: false,
    smp: 0,
    mgp: 0,
};

// The line of no plan and no order.
const NO_LINE: Line = Line {
    plan: 0,
    order: 0,
    sr: 0,
    dr: 0,
    dlr: 0,
    slr: 0,
    plan_pay: 0,
    order_pay: 0,
    fined: 0,
};

// A source in which every customer has a baseline and a load.
fn source(baseline: i32, load: u32) -> Steady {
    Steady {
        baseline,
        with_baseline: 16,
        load,
        with_load: 16,
    }
}

// An hour of a standard resource with a count of customers, settled by some terms.
fn standard(customers: u32, slot: Slot, terms: Terms) -> ResourceHour {
    ResourceHour {
        portfolio: Portfolio {
            kind: Kind::Standard,
            customers,
        },
        slot,
        terms,
    }
}

// What some terms are refused for, for one customer who takes part and whose load is the baseline.
fn refused(hour: u32, terms: Terms) -> Option<Refusal> {
    let level = source(700, 700);
    let slot = Slot { hour, ..SLOT };
    standard(1, slot, terms).settle(&level, &level, &[1]).err()
}

#[test]
fn an_order_is_paid_up_to_six_fifths(rt: HostRuntime) {
    let idle = source(0, 0);
    let cut = source(2_000_000, 700_000);
    let ordered = Terms {
        order: 1_000_000,
        smp: 10_000,
        mgp: 15_000,
        ..NOTHING
    };
    let emergency = Terms {
        emergency: true,
        ..ordered
    };
    let test = Terms {
        test: true,
        ..ordered
    };
    for (terms, dlr, order_pay) in [
        (ordered, 1_200_000, 180_000),
        (emergency, 1_300_000, 195_000),
        (test, 1_200_000, 120_000),
    ] {
        let line = Line {
            order: 1_000_000,
            dr: 1_300_000,
            dlr,
            order_pay,
            ..NO_LINE
        };
        assert_eq!(rt;
            standard(1, SLOT, terms).settle(&idle, &cut, &[1]),
            Ok(line)
        );
    }
}

#[test]
fn a_plan_is_paid_after_the_order_and_fined_before_it(rt: HostRuntime) {
    let both = Terms {
        plan: 500_000,
        order: 1_000_000,
        smp: 12_050,
        mgp: 15_000,
        ..NOTHING
    };
    let paid = Line {
        plan: 500_000,
        order: 1_000_000,
        sr: 1_300_000,
        dr: 1_000_000,
        dlr: 1_000_000,
        slr: 300_000,
        plan_pay: 36_150,
        order_pay: 150_000,
        fined: 0,
    };
    let small = Terms {
        plan: 100,
        smp: 12_050,
        ..NOTHING
    };
    let fined = Line {
        plan: 100,
        sr: -5,
        fined: 12,
        ..NO_LINE
    };
    let above = source(0, 5);
    for (scheduled, mandatory, terms, line) in [
        (source(1_300_000, 0), source(1_000_000, 0), both, paid),
        (above, above, small, fined),
    ] {
        assert_eq!(rt;
            standard(1, SLOT, terms).settle(&scheduled, &mandatory, &[1]),
            Ok(line)
        );
    }
}

#[test]
fn orders_are_taken_in_their_hours(rt: HostRuntime) {
    let order = Terms {
        order: 1,
        ..NOTHING
    };
    let outside = Some(Refusal::OutsideOrderHours);
    for (hour, refusal) in [
        (9, outside),
        (10, None),
        (12, None),
        (13, outside),
        (14, None),
        (20, None),
        (21, outside),
    ] {
        assert_eq!(rt; refused(hour, order), refusal);
    }
    assert_eq!(rt; refused(13, Terms { plan: 1, ..NOTHING }), None);
    for (month, hour, takes) in [
        (2, 11, false),
        (3, 10, false),
        (3, 11, true),
        (3, 17, true),
        (3, 18, false),
        (5, 13, true),
        (6, 11, false),
        (8, 17, false),
        (9, 11, true),
        (11, 17, true),
        (12, 11, false),
    ] {
        for kind in [Kind::StandardHoliday, Kind::SmallMediumHoliday] {
            assert_eq!(rt; takes_order(kind, DayClass::Holiday, month, hour), takes);
        }
    }
    for (kind, class) in [
        (Kind::SmallMedium, DayClass::Holiday),
        (Kind::StandardHoliday, DayClass::Workday),
        (Kind::Standard, DayClass::Neither),
    ] {
        assert!(rt; !takes_order(kind, class, 3, 11));
    }
}

#[test]
fn kinds_go_by_number(rt: HostRuntime) {
    for (number, kind) in [
        (0, Err(UnknownKind(0))),
        (1, Ok(Kind::Standard)),
        (4, Ok(Kind::SmallMediumHoliday)),
        (5, Err(UnknownKind(5))),
    ] {
        assert_eq!(rt; Kind::try_from(number), kind);
    }
}

#[test]
fn limits_hold_at_and_one_past(rt: HostRuntime) {
    let one = Terms { plan: 1, ..NOTHING };
    let plan = |plan| Terms { plan, ..one };
    let order = |order| Terms { order, ..one };
    let smp = |smp| Terms { smp, ..one };
    let mgp = |mgp| Terms { mgp, ..one };
    let above = Some(Refusal::AboveLimit);
    for (terms, refusal) in [
        (plan(640_000_000), None),
        (plan(640_000_001), above),
        (order(500_000_000), None),
        (order(500_000_001), above),
        (smp(200_000), None),
        (smp(200_001), above),
        (mgp(200_000), None),
        (mgp(200_001), above),
    ] {
        assert_eq!(rt; refused(11, terms), refusal);
    }
}

#[test]
fn refusals_come_in_order(rt: HostRuntime) {
    let lacking = Steady {
        with_load: 0,
        ..source(0, 0)
    };
    let midday = Slot { hour: 13, ..SLOT };
    let worst = Terms {
        emergency: true,
        mgp: 200_001,
        ..NOTHING
    };
    let dear = Terms { plan: 1, ..worst };
    let marked = Terms { mgp: 0, ..dear };
    let ordered = Terms { order: 1, ..marked };
    let no_load = NoFigure {
        customer: 0,
        cause: Cause::MissingLoad,
    };
    for (slot, terms, number, refusal) in [
        (midday, worst, 21, Refusal::NeitherPlanNorOrder),
        (midday, dear, 22, Refusal::AboveLimit),
        (midday, marked, 23, Refusal::MarkWithoutOrder),
        (midday, ordered, 24, Refusal::OutsideOrderHours),
        (SLOT, ordered, 25, Refusal::Scheduled(no_load)),
        (
            SLOT,
            Terms { plan: 0, ..ordered },
            26,
            Refusal::Mandatory(no_load),
        ),
    ] {
        let answer = standard(1, slot, terms).settle(&lacking, &lacking, &[1]);
        assert_eq!(rt; answer, Err(refusal));
        assert_eq!(rt; refusal.number(), number);
    }
}

#[test]
fn marks_tell_who_takes_part(rt: HostRuntime) -> Result<(), Fail> {
    let cut = source(1_000, 900);
    let both = Terms {
        plan: 1_000,
        order: 1_000,
        ..NOTHING
    };
    let shorter: &[u8] = &[1];
    let longer: &[u8] = &[1, 1, 1, 1];
    let other: &[u8] = &[2, 0, 1];
    for (marks, sr) in [(shorter, 100), (longer, 300), (other, 100)] {
        let line = standard(3, SLOT, both).settle(&cut, &cut, marks)?;
        assert_eq!(rt; (line.sr, line.dr), (sr, 300));
    }
    Ok(())
}

#[test]
fn the_first_cause_is_told(rt: HostRuntime) -> Result<(), Fail> {
    let whole = source(1_000, 900);
    let plan = Terms { plan: 1, ..NOTHING };
    let order = Terms {
        order: 1,
        ..NOTHING
    };
    let no_load = Steady {
        with_load: 3,
        ..whole
    };
    let no_baseline = Steady {
        with_baseline: 3,
        ..no_load
    };
    for (source, customers, customer, cause) in [
        (no_load, 4, 3, Cause::MissingLoad),
        (no_baseline, 4, 3, Cause::TooFewDays),
        (whole, 17, 16, Cause::OutOfRange),
    ] {
        let lacking = NoFigure { customer, cause };
        assert_eq!(rt;
            standard(customers, SLOT, plan).settle(&source, &whole, &[1; 17]),
            Err(Refusal::Scheduled(lacking))
        );
        assert_eq!(rt;
            standard(customers, SLOT, order).settle(&whole, &source, &[]),
            Err(Refusal::Mandatory(lacking))
        );
    }
    let line = standard(4, SLOT, plan).settle(&no_load, &no_load, &[1, 1, 1, 0])?;
    assert_eq!(rt; line.sr, 300);
    Ok(())
}
