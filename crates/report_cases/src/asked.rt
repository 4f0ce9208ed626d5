// Texts that are read: what each word says.
use load::loads::{DayClass, LoadRecord};
use load::places::CustomerHour;
use report::meter::Meter;
use report::request::Request;
use settlement::terms::Kind;
use std::test::*;

// An hour of a customer's.
fn hour(customer: u32, day: u32, hour: u32) -> CustomerHour {
    CustomerHour {
        customer,
        day,
        hour,
    }
}

#[test]
fn only_a_day(rt: HostRuntime) -> Result<(), Fail> {
    let request = Request::new(rt.alloc())?.read("# a text\n\nday 007")?;
    assert_eq!(rt; request.day(), 7);
    assert_eq!(rt; request.customers(), 1);
    assert_eq!(rt; request.meter(), None);
    assert!(rt; request.settling().is_none());
    assert!(rt; request.purchases().is_none());
    assert_eq!(rt; request.intervals().class(7), DayClass::Neither);
    assert_eq!(rt; request.intervals().load(hour(0, 0, 1)), None);
    Ok(())
}

#[test]
fn loads(rt: HostRuntime) -> Result<(), Fail> {
    let text =
        "day 3\nload 0 0 1 10 11\nload 15 95 24 20000000\nload 2 1 9 5\nload 2 1 9 6\ncustomers 4\nday 4\n";
    let request = Request::new(rt.alloc())?.read(text)?;
    let record = request.intervals();
    assert_eq!(rt; request.day(), 4);
    assert_eq!(rt; request.customers(), 4);
    assert_eq!(rt; request.meter(), Some(Meter::Loads));
    assert_eq!(rt; record.load(hour(0, 0, 1)), Some(10));
    assert_eq!(rt; record.load(hour(0, 0, 2)), Some(11));
    assert_eq!(rt; record.load(hour(0, 0, 3)), None);
    assert_eq!(rt; record.load(hour(15, 95, 24)), Some(20_000_000));
    assert_eq!(rt;
        record.load(hour(2, 1, 9)),
        Some(6),
        "a later line replaces"
    );
    Ok(())
}

#[test]
fn readings(rt: HostRuntime) -> Result<(), Fail> {
    let text =
        "day 1\nreading 1 0 0 100 110 130\nreading 15 95 23 7 9\nreading 0 1 24 999999999\nreading 0 2 1 4\n";
    let request = Request::new(rt.alloc())?.read(text)?;
    let record = request.registers();
    assert_eq!(rt; request.meter(), Some(Meter::Readings));
    assert_eq!(rt; record.load(hour(1, 0, 1)), Some(10));
    assert_eq!(rt; record.load(hour(1, 0, 2)), Some(20));
    assert_eq!(rt; record.load(hour(1, 0, 3)), None);
    assert_eq!(rt; record.load(hour(15, 95, 24)), Some(2));
    assert_eq!(rt;
        record.load(hour(0, 2, 1)),
        Some(5),
        "the end of a day is the next one's begin"
    );
    Ok(())
}

#[test]
fn classes(rt: HostRuntime) -> Result<(), Fail> {
    let request = Request::new(rt.alloc())?.read("workday 0 1 95\nholiday 1 2\nday 0")?;
    let record = request.intervals();
    assert_eq!(rt; record.class(0), DayClass::Workday);
    assert_eq!(rt; record.class(1), DayClass::Holiday);
    assert_eq!(rt; record.class(2), DayClass::Holiday);
    assert_eq!(rt; record.class(3), DayClass::Neither);
    assert_eq!(rt; record.class(95), DayClass::Workday);
    Ok(())
}

#[test]
fn an_hour(rt: HostRuntime) -> Result<(), Fail> {
    let text = "day 0\nsettle 11 2 5 100 200 0 1 12050 15000 1 0 1\nenergy 100 40 25\n";
    let request = Request::new(rt.alloc())?.read(text)?;
    let settling = request.settling().ok_or("no settling")?;
    assert_eq!(rt; settling.hour, 11);
    assert_eq!(rt; settling.kind, Kind::SmallMedium);
    assert_eq!(rt; settling.month, 5);
    assert_eq!(rt; settling.terms.plan, 100);
    assert_eq!(rt; settling.terms.order, 200);
    assert_eq!(rt; settling.terms.emergency, false);
    assert_eq!(rt; settling.terms.test, true);
    assert_eq!(rt; settling.terms.smp, 12050);
    assert_eq!(rt; settling.terms.mgp, 15000);
    assert_eq!(rt;
        settling.marks,
        [1, 0, 1, 0, 0, 0, 0, 0, 0, 0, 0, 0, 0, 0, 0, 0]
    );
    let purchases = request.purchases().ok_or("no purchases")?;
    assert_eq!(rt; purchases.buyers, 3);
    assert_eq!(rt; purchases.bought, [35, 40, 25, 0, 0, 0, 0, 0]);
    Ok(())
}
