// Baseline sources at their edges, and the worked figures.
ghost use Rattle.std.specs.Prelude.{◌≤◌};

use crate::outcome::Tally;
use crate::records::asked;
use baseline::adjusted::Adjusted;
use baseline::filed::FiledSource;
use baseline::method::Method;
use baseline::ranked::Ranked;
use baseline::source::BaselineSource;
use load::interval::IntervalRecord;
use load::left_out::LeftOut;
use refusal::{Cause, Refusal};

// A load that counts as missing.
const TOO_HIGH: u32 = 20_000_001;

// The methods by their texts.
pub fn methods(tally: &mut Tally) -> anyhow::Result<()> {
    for (text, expected) in [
        ("max45", Ok(())),
        ("mid610", Ok(())),
        ("mid46", Ok(())),
        ("mid810", Ok(())),
        ("hmax45", Ok(())),
        ("hmid610", Ok(())),
        ("hmid46", Ok(())),
        ("hmid810", Err(Refusal::UnknownMethod)),
        ("MAX45", Err(Refusal::UnknownMethod)),
        ("max45 ", Err(Refusal::UnknownMethod)),
        ("", Err(Refusal::UnknownMethod)),
    ] {
        let named = text.parse::<Method>().map(|_| ());
        tally.note("a method by its text", expected, named)?;
    }
    Ok(())
}

// A record of workdays alone.
fn on_workdays(loads: &[u32]) -> IntervalRecord<'_> {
    IntervalRecord {
        loads,
        classes: &[0; 96],
    }
}

// Enters a customer's loads in an hour, oldest day first.
fn enter(loads: &mut [u32; 2304], hour: usize, days: &[u32])
    requires { 1 ≤ hour }
{
    for (place, load) in loads.iter_mut().skip(hour - 1).step_by(24).zip(days) {
        *place = *load;
    }
}

// The loads of one customer over 96 days, hour 11 alone, oldest day first.
fn hour_11(days: &[u32]) -> [u32; 2304] {
    let mut loads = [TOO_HIGH; 2304];
    enter(&mut loads, 11, days);
    loads
}

// The worked figures of the methods, and the edges of their days: the baseline in hour 11 of a day, over workdays alone.
pub fn means(tally: &mut Tally) -> anyhow::Result<()> {
    let ten = [1, 2, 3, 4, 5, 6, 7, 8, 9, 10];
    let tens = [10, 20, 30, 40, 50, 61];
    for (what, text, days, day, expected) in [
        (
            "max45 of 10, 20, 30, 40, 50",
            "max45",
            &tens[..5],
            5,
            Ok(35),
        ),
        (
            "max45 of 1, 2, 2, 2, 1",
            "max45",
            &[1, 2, 2, 2, 1],
            5,
            Ok(2),
        ),
        ("mid46 of 10 to 50 and 61", "mid46", &tens, 6, Ok(35)),
        ("mid610 of 1 to 10", "mid610", &ten, 10, Ok(6)),
        ("mid810 of 1 to 10", "mid810", &ten, 10, Ok(6)),
        (
            "max45 over four days",
            "max45",
            &tens[..4],
            4,
            Err(Cause::TooFewDays),
        ),
        (
            "mid610 over nine days",
            "mid610",
            &ten,
            9,
            Err(Cause::TooFewDays),
        ),
        (
            "hmax45 over workdays",
            "hmax45",
            &ten,
            10,
            Err(Cause::TooFewDays),
        ),
        ("max45 on day 96", "max45", &ten, 96, Err(Cause::OutOfRange)),
    ] {
        let loads = hour_11(days);
        let source = Ranked::new(on_workdays(&loads), text.parse()?);
        tally.note(what, expected, source.baseline(asked(0, day, 11)))?;
    }
    Ok(())
}

// The reach counts days that do not stand: ten workdays before day 11, day 0 and some of the newest left out.
pub fn reach(tally: &mut Tally) -> anyhow::Result<()> {
    let loads = hour_11(&[90, 10, 20, 30, 40, 50, 60, 70, 80, 90, 100]);
    for (what, marks, expected) in [
        ("max45 with none left out", [0; 11], Ok(85)),
        (
            "max45 with five left out, ten in reach",
            [0, 0, 0, 0, 0, 0, 1, 1, 1, 1, 1],
            Ok(35),
        ),
        (
            "reach counts days that do not stand: six left out",
            [0, 0, 0, 0, 0, 1, 1, 1, 1, 1, 1],
            Err(Cause::TooFewDays),
        ),
    ] {
        let record = LeftOut {
            below: on_workdays(&loads),
            marks: &marks,
        };
        let source = Ranked::new(record, "max45".parse()?);
        tally.note(what, expected, source.baseline(asked(0, 11, 11)))?;
    }
    Ok(())
}

// Which of equal days is struck, and causes of a profile: five days with equal loads in hour 11 and, oldest first, 100, 1, 1, 1, 1 in hour 9; the last lacks hour 8, the first hour 7.
pub fn profiles(tally: &mut Tally) -> anyhow::Result<()> {
    let mut loads = [3; 2304];
    enter(&mut loads, 9, &[100, 1, 1, 1, 1]);
    loads[4 * 24 + 7] = TOO_HIGH;
    loads[6] = TOO_HIGH;
    let source = Ranked::new(on_workdays(&loads), "max45".parse()?);
    for (what, hour, at, expected) in [
        ("of equal loads the older day is struck", 11, 9, Ok(1)),
        (
            "a day that is left lacks the load in hour g",
            11,
            8,
            Err(Cause::MissingLoad),
        ),
        ("a struck day lacks the load in hour g", 11, 7, Ok(3)),
        ("a profile with hour 0", 0, 9, Err(Cause::OutOfRange)),
        ("a profile with hour 25", 25, 9, Err(Cause::OutOfRange)),
        ("a profile with hour g 0", 11, 0, Err(Cause::OutOfRange)),
        ("a profile with hour g 25", 11, 25, Err(Cause::OutOfRange)),
    ] {
        tally.note(what, expected, source.profile(asked(0, 5, hour), at))?;
    }
    Ok(())
}

// The filed source.
pub fn filed(tally: &mut Tally) -> anyhow::Result<()> {
    let source = FiledSource {
        baselines: &[40_000_000, 40_000_001, -40_000_000, -40_000_001],
        loads: &[0; 4],
    };
    for (what, asked, expected) in [
        ("filed baseline 40,000,000", asked(0, 0, 1), Ok(40_000_000)),
        (
            "filed baseline 40,000,001",
            asked(0, 0, 2),
            Err(Cause::MissingLoad),
        ),
        (
            "filed baseline -40,000,000",
            asked(0, 0, 3),
            Ok(-40_000_000),
        ),
        (
            "filed baseline -40,000,001",
            asked(0, 0, 4),
            Err(Cause::MissingLoad),
        ),
        (
            "filed baseline past the list's end",
            asked(0, 0, 5),
            Err(Cause::MissingLoad),
        ),
        (
            "filed baseline in hour 0",
            asked(0, 0, 0),
            Err(Cause::OutOfRange),
        ),
        (
            "filed baseline on day 96",
            asked(0, 96, 1),
            Err(Cause::OutOfRange),
        ),
        (
            "filed baseline of customer 16",
            asked(16, 0, 1),
            Err(Cause::OutOfRange),
        ),
    ] {
        tally.note(what, expected, source.baseline(asked))?;
    }
    for (what, at, cause) in [
        ("filed profile in range", 1, Cause::MissingLoad),
        ("filed profile with hour g 25", 25, Cause::OutOfRange),
    ] {
        tally.note(what, Err(cause), source.profile(asked(0, 0, 1), at))?;
    }
    Ok(())
}

// The adjusting layer, on day 5: 200 on each day before, and on day 5 in hour 2 a gap over 200.
pub fn adjusted(tally: &mut Tally) -> anyhow::Result<()> {
    for (what, start, gap, hour, expected) in [
        ("baseline 200 with gap 29", 5, 29, 5, 210),
        ("baseline 200 with gap -29", 5, -29, 5, 190),
        ("baseline 200 with gap -2", 5, -2, 5, 199),
        ("an hour before the order is adjusted", 5, 29, 1, 210),
        ("an hour after the order is adjusted", 5, 29, 24, 210),
        ("an order starting in hour 4 adjusts nothing", 4, 29, 5, 200),
        ("start 6 takes hours 2, 3 and 4", 6, 29, 5, 210),
        ("start 7 takes hours 3, 4 and 5", 7, 29, 5, 200),
        ("start 0 is none", 0, 29, 5, 200),
        ("a load is missing before start 24", 24, 29, 5, 200),
        ("start 25 adjusts nothing", 25, 29, 5, 200),
        ("start 255 adjusts nothing", 255, 29, 5, 200),
    ] {
        let mut loads = [200; 2304];
        loads[5 * 24 + 1] = 200_u32.saturating_add_signed(gap);
        loads[5 * 24 + 22] = TOO_HIGH;
        let source = Adjusted {
            below: Ranked::new(on_workdays(&loads), "max45".parse()?),
            starts: &[0, 0, 0, 0, 0, start],
        };
        tally.note(what, Ok(expected), source.baseline(asked(0, 5, hour)))?;
    }
    Ok(())
}

// Day 0 has the lowest load in hour 5, the start, and the highest in hours 1 to 3.
pub fn adjusting_days(tally: &mut Tally) -> anyhow::Result<()> {
    let mut loads = [200; 2304];
    loads[0] = 1_000;
    loads[1] = 1_000;
    loads[2] = 1_000;
    loads[4] = 100;
    let source = Adjusted {
        below: Ranked::new(on_workdays(&loads), "max45".parse()?),
        starts: &[5; 6],
    };
    for (what, day) in [
        (
            "the adjusting hours go over the days chosen for the start hour",
            5,
        ),
        ("a day without a start byte is not adjusted", 6),
    ] {
        tally.note(what, Ok(200), source.baseline(asked(0, day, 5)))?;
    }
    Ok(())
}
