// The methods, the ranked and the filed source, and the adjusting layer.
use baseline::adjusted::Adjusted;
use baseline::filed::FiledSource;
use baseline::method::Method;
use baseline::ranked::Ranked;
use baseline::source::BaselineSource;
use load::interval::IntervalRecord;
use load::left_out::LeftOut;
use load::places::CustomerHour;
use refusal::{Cause, Refusal};
use std::test::Fail;

// A load that counts as missing.
const MISSING: u32 = 4_294_967_295;

// An hour of a day of a customer.
fn at(customer: u32, day: u32, hour: u32) -> CustomerHour {
    CustomerHour {
        customer,
        day,
        hour,
    }
}

// Loads of customer 0 in one hour, day by day from day 0 on; every other hour is missing.
fn put_hour(loads: &mut [u32; 600], hour: usize, days: &[u32]) {
    for (day, load) in loads.chunks_exact_mut(24).zip(days) {
        if (1..=24).contains(&hour) {
            day[hour - 1] = *load;
        }
    }
}

// A record of loads on workdays.
fn on_workdays(loads: &[u32; 600]) -> IntervalRecord<'_> {
    IntervalRecord {
        loads,
        classes: &[0; 96],
    }
}

// The baseline in hour 11 on the day after these workdays.
fn baseline_after(text: &str, days: &[u32]) -> Result<Result<i32, Cause>, Refusal> {
    let mut loads = [MISSING; 600];
    put_hour(&mut loads, 11, days);
    let source = Ranked::new(on_workdays(&loads), text.parse::<Method>()?);
    Ok(source.baseline(at(0, (days.len() % 96) as u32, 11)))
}

#[test]
fn methods_by_their_texts(rt: HostRuntime) {
    for text in [
        "max45", "mid610", "mid46", "mid810", "hmax45", "hmid610", "hmid46",
    ] {
        assert!(rt; text.parse::<Method>().is_ok());
    }
    for text in ["", "max46", "Max45", "max45 ", "hmid810", "mid61"] {
        let refusal = text.parse::<Method>().err();
        assert_eq!(rt; refusal.map(|refusal| refusal.number()), Some(8));
    }
}

#[test]
fn worked_baselines(rt: HostRuntime) -> Result<(), Fail> {
    let cases: [(&str, &[u32], Result<i32, Cause>); 7] = [
        ("max45", &[10, 20, 30, 40, 50], Ok(35)),
        ("max45", &[1, 2, 2, 2, 1], Ok(2)),
        ("mid46", &[10, 20, 30, 40, 50, 61], Ok(35)),
        ("mid610", &[1, 2, 3, 4, 5, 6, 7, 8, 9, 10], Ok(6)),
        ("mid810", &[1, 2, 3, 4, 5, 6, 7, 8, 9, 30], Ok(6)),
        ("max45", &[10, 20, 30, 40], Err(Cause::TooFewDays)),
        ("hmax45", &[10, 20, 30, 40, 50], Err(Cause::TooFewDays)),
    ];
    for (text, days, baseline) in cases {
        assert_eq!(rt; baseline_after(text, days)?, baseline);
    }
    Ok(())
}

#[test]
fn reach_is_spent_by_days_that_do_not_stand(rt: HostRuntime) -> Result<(), Fail> {
    let mut loads = [MISSING; 600];
    put_hour(&mut loads, 11, &[10; 15]);
    let max45 = "max45".parse::<Method>()?;
    let five = [0, 0, 0, 0, 0, 0, 0, 0, 0, 0, 1, 1, 1, 1, 1];
    let six = [0, 0, 0, 0, 0, 0, 0, 0, 0, 1, 1, 1, 1, 1, 1];
    for (marks, baseline) in [(&five, Ok(10)), (&six, Err(Cause::TooFewDays))] {
        let record = LeftOut {
            below: on_workdays(&loads),
            marks,
        };
        assert_eq!(rt;
            Ranked::new(record, max45).baseline(at(0, 15, 11)),
            baseline
        );
    }
    Ok(())
}

#[test]
fn a_profile_keeps_the_days_of_its_first_hour(rt: HostRuntime) -> Result<(), Fail> {
    let mut loads = [MISSING; 600];
    put_hour(&mut loads, 11, &[10, 20, 30, 40, 50]);
    put_hour(&mut loads, 12, &[100, 8, 8, 8, 8, 1000]);
    put_hour(&mut loads, 13, &[100, 8, 8, MISSING, 8]);
    put_hour(&mut loads, 14, &[MISSING, 8, 8, 8, 9]);
    let source = Ranked::new(on_workdays(&loads), "max45".parse::<Method>()?);
    for (hour, g, mean, why) in [
        (11, 12, Ok(8), "8, 8, 8 and 8 are left of days 4 to 0"),
        (12, 12, Ok(256), "1000, 8, 8 and 8 are left of days 5 to 1"),
        (
            11,
            13,
            Err(Cause::MissingLoad),
            "a day that is left lacks the load",
        ),
        (11, 14, Ok(8), "a struck day may lack the load"),
        (11, 25, Err(Cause::OutOfRange), "no hour 25"),
        (10, 11, Err(Cause::TooFewDays), "hour 10 was not metered"),
    ] {
        assert_eq!(rt; source.profile(at(0, 6, hour), g), mean, "{why}");
    }
    for asked in [at(16, 6, 11), at(0, 96, 11)] {
        assert_eq!(rt; source.baseline(asked), Err(Cause::OutOfRange));
    }
    assert_eq!(rt; source.metered(at(0, 4, 11)), Some(50));
    Ok(())
}

// The adjusted baseline of 200 in hour 6 of day 5, where hours 1 to 3 are usually 100 each.
fn adjusted_at(start: u8, metered: [u32; 3]) -> Result<Result<i32, Cause>, Refusal> {
    let mut loads = [MISSING; 600];
    for (hour, load) in (1..4).zip(metered) {
        put_hour(&mut loads, hour, &[100, 100, 100, 100, 100, load]);
    }
    for hour in 4..7 {
        put_hour(&mut loads, hour, &[200; 5]);
    }
    let source = Adjusted {
        below: Ranked::new(on_workdays(&loads), "max45".parse::<Method>()?),
        starts: &[0, 0, 0, 0, 0, start],
    };
    Ok(source.baseline(at(0, 5, 6)))
}

#[test]
fn adjusted_baselines(rt: HostRuntime) -> Result<(), Fail> {
    for (start, metered, baseline, why) in [
        (5, [110, 110, 109], 210, "a gap of 29"),
        (5, [90, 90, 91], 190, "a gap of -29"),
        (5, [100, 100, 98], 199, "a gap of -2"),
        (4, [110, 110, 109], 200, "too early a start"),
        (0, [110, 110, 109], 200, "no order"),
        (25, [110, 110, 109], 200, "no such hour"),
        (5, [110, MISSING, 109], 200, "a load is missing"),
        (6, [110, 110, 109], 200, "hour 4 was not metered"),
    ] {
        assert_eq!(rt; adjusted_at(start, metered)?, Ok(baseline), "{why}");
    }
    Ok(())
}

#[test]
fn baselines_stay_within_bounds(rt: HostRuntime) -> Result<(), Fail> {
    let mut loads = [MISSING; 600];
    for hour in 1..4 {
        put_hour(&mut loads, hour, &[0, 0, 0, 0, 0, 20_000_000]);
    }
    put_hour(&mut loads, 5, &[20_000_000; 5]);
    let starts = [0, 0, 0, 0, 0, 5];
    let once = Adjusted {
        below: Ranked::new(on_workdays(&loads), "max45".parse::<Method>()?),
        starts: &starts,
    };
    assert_eq!(rt; once.baseline(at(0, 5, 5)), Ok(40_000_000));
    let twice = Adjusted {
        below: once,
        starts: &starts,
    };
    assert_eq!(rt; twice.baseline(at(0, 5, 5)), Ok(40_000_000));
    Ok(())
}

#[test]
fn filed_baselines(rt: HostRuntime) {
    let source = FiledSource {
        baselines: &[-40_000_000, 40_000_000, -40_000_001, 40_000_001],
        loads: &[20_000_000, 20_000_001],
    };
    for (hour, baseline, why) in [
        (1, Ok(-40_000_000), "the least"),
        (2, Ok(40_000_000), "the greatest"),
        (3, Err(Cause::MissingLoad), "below the least"),
        (4, Err(Cause::MissingLoad), "above the greatest"),
        (5, Err(Cause::MissingLoad), "past the list's end"),
        (25, Err(Cause::OutOfRange), "no hour 25"),
    ] {
        assert_eq!(rt; source.baseline(at(0, 0, hour)), baseline, "{why}");
    }
    assert_eq!(rt; source.profile(at(0, 0, 1), 1), Err(Cause::MissingLoad));
    assert_eq!(rt; source.profile(at(0, 0, 1), 25), Err(Cause::OutOfRange));
    assert_eq!(rt; source.metered(at(0, 0, 1)), Some(20_000_000));
    assert_eq!(rt; source.metered(at(0, 0, 2)), None);
}
