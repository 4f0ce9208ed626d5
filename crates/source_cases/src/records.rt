// The two records at the bottom, and the left-out layer.
use load::interval::IntervalRecord;
use load::left_out::LeftOut;
use load::loads::{DayClass, LoadRecord};
use load::places::CustomerHour;
use load::register::RegisterRecord;
use std::process::Abort;

// That a record has these loads, each by customer, day and hour.
fn has_loads<R: LoadRecord>(
    rt: &impl Abort,
    record: &R,
    loads: &[(u32, u32, u32, Option<u32>, &str)],
) {
    for &(customer, day, hour, load, why) in loads {
        let asked = CustomerHour {
            customer,
            day,
            hour,
        };
        assert_eq!(rt; record.load(asked), load, "{why}");
    }
}

#[test]
fn interval_loads(rt: HostRuntime) {
    let record = IntervalRecord {
        loads: &[20_000_000, 20_000_001, 0],
        classes: &[],
    };
    has_loads(
        &rt,
        &record,
        &[
            (0, 0, 1, Some(20_000_000), "20,000,000"),
            (0, 0, 2, None, "20,000,001"),
            (0, 0, 3, Some(0), "nought"),
            (0, 0, 4, None, "past the list's end"),
            (0, 0, 0, None, "no hour 0"),
            (0, 96, 1, None, "no day 96"),
            (16, 0, 1, None, "no customer 16"),
            (4294967295, 4294967295, 4294967295, None, "far out"),
        ],
    );
}

#[test]
fn interval_places(rt: HostRuntime) {
    let mut loads = [7; 2400];
    loads[2 * 24 + 11] = 1;
    loads[96 * 24] = 2;
    let record = IntervalRecord {
        loads: &loads,
        classes: &[],
    };
    has_loads(
        &rt,
        &record,
        &[
            (0, 2, 12, Some(1), "day 2, hour 12"),
            (1, 0, 1, Some(2), "customer 1, day 0, hour 1"),
            (0, 95, 24, Some(7), "the first customer's last hour"),
            (0, 0, 25, None, "no hour 25"),
        ],
    );
}

#[test]
fn register_loads(rt: HostRuntime) {
    let record = RegisterRecord {
        readings: &[999_999_990, 5, 20_000_005, 40_000_006, 1_000_000_000, 7, 7],
        classes: &[],
    };
    has_loads(
        &rt,
        &record,
        &[
            (0, 0, 1, Some(15), "the register goes round"),
            (0, 0, 2, Some(20_000_000), "20,000,000"),
            (0, 0, 3, None, "20,000,001"),
            (0, 0, 4, None, "no such reading"),
            (0, 0, 5, None, "no such reading before"),
            (0, 0, 6, Some(0), "nought"),
            (0, 0, 7, None, "past the list's end"),
        ],
    );
}

#[test]
fn register_places(rt: HostRuntime) {
    let mut readings = [0; 2330];
    readings[25] = 3;
    readings[2306] = 4;
    let record = RegisterRecord {
        readings: &readings,
        classes: &[],
    };
    has_loads(
        &rt,
        &record,
        &[
            (0, 1, 1, Some(3), "day 1, hour 1"),
            (1, 0, 1, Some(4), "customer 1, day 0, hour 1"),
            (0, 95, 24, Some(0), "the first customer's last reading"),
        ],
    );
}

#[test]
fn classes_and_days(rt: HostRuntime) {
    let record = IntervalRecord {
        loads: &[],
        classes: &[0, 1, 2],
    };
    for (day, class, why) in [
        (0, DayClass::Workday, "byte 0"),
        (1, DayClass::Holiday, "byte 1"),
        (2, DayClass::Neither, "another byte"),
        (3, DayClass::Neither, "past the list's end"),
    ] {
        assert_eq!(rt; record.class(day), class, "{why}");
    }
    for (customer, day, stands) in [(15, 95, true), (15, 96, false), (16, 95, false)] {
        assert_eq!(rt; record.stands(customer, day), stands);
    }
    let long = IntervalRecord {
        loads: &[],
        classes: &[0; 97],
    };
    assert_eq!(rt; long.class(95), DayClass::Workday);
    assert_eq!(rt; long.class(96), DayClass::Neither);
}

#[test]
fn left_out_days(rt: HostRuntime) {
    let below = IntervalRecord {
        loads: &[5],
        classes: &[1],
    };
    let record = LeftOut {
        below: &below,
        marks: &[1, 0, 2],
    };
    for (day, stands, why) in [
        (0, false, "left out"),
        (1, true, "not left out"),
        (2, true, "another byte does not leave a day out"),
        (3, true, "past the table's end"),
        (96, false, "no day 96"),
    ] {
        assert_eq!(rt; record.stands(0, day), stands, "{why}");
    }
    has_loads(&rt, &record, &[(0, 0, 1, Some(5), "loads pass")]);
    assert_eq!(rt; record.class(0), DayClass::Holiday, "classes pass");
}
