// Load records at their edges.
use crate::outcome::Tally;
use load::interval::IntervalRecord;
use load::left_out::LeftOut;
use load::loads::{DayClass, LoadRecord};
use load::places::CustomerHour;
use load::register::RegisterRecord;

// An hour of a customer's.
pub fn asked(customer: u32, day: u32, hour: u32) -> CustomerHour {
    CustomerHour {
        customer,
        day,
        hour,
    }
}

// The interval record, whose list ends after the second customer's first hour.
pub fn intervals(tally: &mut Tally) -> anyhow::Result<()> {
    let mut loads = [0; 2305];
    loads[0] = 20_000_000;
    loads[1] = 20_000_001;
    loads[2303] = 5;
    loads[2304] = 6;
    let record = IntervalRecord {
        loads: &loads,
        classes: &[0, 1, 2],
    };
    for (what, asked, expected) in [
        ("interval load 20,000,000", asked(0, 0, 1), Some(20_000_000)),
        ("interval load 20,000,001", asked(0, 0, 2), None),
        (
            "interval load of the last day's hour 24",
            asked(0, 95, 24),
            Some(5),
        ),
        (
            "interval load of the next customer's first hour",
            asked(1, 0, 1),
            Some(6),
        ),
        ("interval load past the list's end", asked(1, 0, 2), None),
        ("interval load in hour 0", asked(1, 0, 0), None),
        ("interval load in hour 25", asked(0, 94, 25), None),
        ("interval load on day 96", asked(0, 96, 1), None),
        ("interval load of customer 16", asked(16, 0, 1), None),
    ] {
        tally.note(what, expected, record.load(asked))?;
    }
    for (what, day, expected) in [
        ("class of byte 0 (workday is 0)", 0, DayClass::Workday),
        ("class of byte 1 (holiday is 1)", 1, DayClass::Holiday),
        ("class of byte 2 (neither is 2)", 2, DayClass::Neither),
        ("class of a day without a byte", 3, DayClass::Neither),
        ("class of day 96", 96, DayClass::Neither),
    ] {
        tally.note(what, expected, record.class(day))?;
    }
    Ok(())
}

// The register record: it goes round at 1,000,000,000.
pub fn registers(tally: &mut Tally) -> anyhow::Result<()> {
    let mut readings = [0; 2307];
    readings[0] = 999_999_990;
    readings[1] = 9;
    readings[2] = 20_000_009;
    readings[3] = 40_000_010;
    readings[4] = 999_999_999;
    readings[5] = 0;
    readings[6] = 1_000_000_000;
    readings[7] = 4;
    readings[8] = 3;
    readings[2305] = 100;
    readings[2306] = 107;
    let record = RegisterRecord {
        readings: &readings,
        classes: &[1],
    };
    for (what, asked, expected) in [
        (
            "register round from 999,999,990 to 9",
            asked(0, 0, 1),
            Some(19),
        ),
        ("register load 20,000,000", asked(0, 0, 2), Some(20_000_000)),
        ("register load 20,000,001", asked(0, 0, 3), None),
        (
            "register round from 999,999,999 to 0",
            asked(0, 0, 5),
            Some(1),
        ),
        (
            "register up to a reading of 1,000,000,000",
            asked(0, 0, 6),
            None,
        ),
        (
            "register from a reading of 1,000,000,000",
            asked(0, 0, 7),
            None,
        ),
        ("register backward by 1", asked(0, 0, 8), None),
        (
            "register of the next customer's first hour",
            asked(1, 0, 1),
            Some(7),
        ),
        ("register past the list's end", asked(1, 0, 2), None),
        ("register in hour 0", asked(1, 0, 0), None),
        ("register in hour 25", asked(0, 0, 25), None),
        ("register on day 96", asked(0, 96, 1), None),
        ("register of customer 16", asked(16, 0, 1), None),
    ] {
        tally.note(what, expected, record.load(asked))?;
    }
    tally.note(
        "register's class of byte 1",
        DayClass::Holiday,
        record.class(0),
    )
}

// The left-out layer, over a lent record.
pub fn left_out(tally: &mut Tally) -> anyhow::Result<()> {
    let record = IntervalRecord {
        loads: &[7; 96],
        classes: &[1, 1, 1, 1],
    };
    let standing = LeftOut {
        below: &record,
        marks: &[1, 0, 2],
    };
    for (what, customer, day, expected) in [
        ("a day left out by byte 1 stands (1 is yes)", 0, 0, false),
        ("a day with byte 0 stands", 0, 1, true),
        ("a day with byte 2 stands", 0, 2, true),
        ("a day without a byte stands", 0, 3, true),
        ("day 95 stands", 15, 95, true),
        ("day 96 stands", 0, 96, false),
        ("a day of customer 16 stands", 16, 1, false),
    ] {
        tally.note(what, expected, standing.stands(customer, day))?;
    }
    tally.note(
        "a left-out day's load passes",
        Some(7),
        standing.load(asked(0, 0, 1)),
    )?;
    tally.note(
        "a left-out day's class passes",
        DayClass::Holiday,
        standing.class(0),
    )?;
    tally.note(
        "the lent record stands on that day",
        true,
        record.stands(0, 0),
    )
}
