// Every refusal of the calls at its edge, after which book and lists are as they were.
use crate::may::{Desk, PLANNED, blank, filed, on, prepare, prepared, reopen};
use refusal::{Cause, NoFigure, Refusal};
use settlement::terms::Terms;
use std::process::Abort;
use std::test::Fail;

// What a day past the figures lacks.
const LACKING: NoFigure = NoFigure {
    customer: 0,
    cause: Cause::MissingLoad,
};

// Tells hours outside the month, an allotted one, and energies that do not fit.
fn telling(rt: &impl Abort, desk: &mut Desk) {
    for (at, total, others, refusal) in [
        (on(0, 13), 3, &[1, 1][..], Refusal::NoSuchHour),
        (on(32, 13), 3, &[1, 1], Refusal::NoSuchHour),
        (on(1, 0), 3, &[1, 1], Refusal::NoSuchHour),
        (on(1, 25), 0, &[1, 1], Refusal::NoSuchHour),
        (on(1, 11), 0, &[1, 1], Refusal::HourAllotted),
        (on(31, 24), 0, &[1], Refusal::BadTotal),
        (on(31, 24), 150_000_001, &[1, 1], Refusal::BadTotal),
        (on(31, 24), 3, &[4], Refusal::PurchaseCount),
        (on(31, 24), 3, &[1, 1, 1], Refusal::PurchaseCount),
        (on(31, 24), 3, &[2, 2], Refusal::PurchasesExceedTotal),
        (
            on(31, 24),
            3,
            &[4_294_967_295, 1],
            Refusal::PurchasesExceedTotal,
        ),
    ] {
        assert_eq!(rt; desk.tell(at, total, others), Err(refusal));
    }
}

// Settles an hour outside the month, an unknown resource, an allotted hour, terms that do not fit, an order outside its hours, and a day past the figures.
fn settling(rt: &impl Abort, desk: &mut Desk) {
    let marked = Terms {
        test: true,
        ..PLANNED
    };
    let none = Terms { plan: 0, ..marked };
    let dear = Terms {
        smp: 200_001,
        ..marked
    };
    let order = Terms {
        order: 1,
        ..PLANNED
    };
    for (resource, at, terms, mark, refusal) in [
        (1, on(1, 25), none, 1, Refusal::NoSuchHour),
        (1, on(1, 11), none, 1, Refusal::NoSuchResource),
        (0, on(1, 11), none, 1, Refusal::HourAllotted),
        (0, on(1, 12), none, 1, Refusal::NeitherPlanNorOrder),
        (0, on(1, 12), dear, 1, Refusal::AboveLimit),
        (0, on(1, 13), marked, 1, Refusal::MarkWithoutOrder),
        (0, on(5, 13), order, 1, Refusal::OutsideOrderHours),
        (0, on(5, 12), order, 1, Refusal::Scheduled(LACKING)),
        (0, on(5, 12), order, 0, Refusal::Mandatory(LACKING)),
    ] {
        let settled = desk.settle(&filed(resource, at, terms, &[mark]));
        assert_eq!(rt; settled, Err(refusal));
    }
}

// Withdraws outside the month, an unknown resource, from an allotted hour, and where no line stands.
fn withdrawing(rt: &impl Abort, desk: &mut Desk) {
    for (resource, at, refusal) in [
        (1, on(0, 11), Refusal::NoSuchHour),
        (1, on(1, 11), Refusal::NoSuchResource),
        (0, on(1, 11), Refusal::HourAllotted),
        (0, on(1, 13), Refusal::NoLine),
    ] {
        let withdrawn = desk.withdraw(resource, at);
        assert_eq!(rt; withdrawn, Err(refusal));
    }
}

// Allots outside the month, an allotted hour, and one with no energies told.
fn allotting(rt: &impl Abort, desk: &mut Desk) {
    for (at, refusal) in [
        (on(1, 0), Refusal::NoSuchHour),
        (on(1, 11), Refusal::HourAllotted),
        (on(1, 13), Refusal::NoEnergies),
    ] {
        let allotted = desk.allot(at);
        assert_eq!(rt; allotted, Err(refusal));
    }
}

// Reopens outside the month, an hour that is only told, one that is blank, and an allotted one.
fn reopening(rt: &impl Abort, desk: &mut Desk) {
    for (at, expected) in [
        (on(32, 11), Err(Refusal::NoSuchHour)),
        (on(1, 12), Err(Refusal::HourNotAllotted)),
        (on(1, 13), Err(Refusal::HourNotAllotted)),
        (on(1, 11), Ok(())),
    ] {
        let reopened = reopen(&mut desk.book, &desk.lines, &mut desk.charges, at);
        assert_eq!(rt; reopened, expected);
    }
}

// Reads lines and charges that are not there.
fn reading(rt: &impl Abort, desk: &Desk) {
    for (resource, at, refusal) in [
        (1, on(1, 25), Refusal::NoSuchHour),
        (1, on(1, 13), Refusal::NoSuchResource),
        (0, on(1, 13), Refusal::NoLine),
    ] {
        assert_eq!(rt; desk.read_line(resource, at), Err(refusal));
    }
    for (buyer, at, refusal) in [
        (3, on(32, 11), Refusal::NoSuchHour),
        (3, on(1, 12), Refusal::NoSuchBuyer),
        (2, on(1, 12), Refusal::HourNotAllotted),
    ] {
        assert_eq!(rt; desk.read_charge(buyer, at), Err(refusal));
    }
}

// A book not yet opened names no hour.
fn unopened(rt: &impl Abort, desk: &mut Desk) {
    let at = on(1, 11);
    let settling = filed(0, at, PLANNED, &[1]);
    assert_eq!(rt; desk.tell(at, 3, &[1, 1]), Err(Refusal::NoSuchHour));
    assert_eq!(rt; desk.settle(&settling), Err(Refusal::NoSuchHour));
    assert_eq!(rt; desk.allot(at), Err(Refusal::NoSuchHour));
    assert_eq!(rt; desk.read_line(0, at), Err(Refusal::NoSuchHour));
}

// A prepared book refuses lists shorter than the measure before anything else.
fn measured(rt: &impl Abort, desk: &mut Desk) {
    let Desk {
        book,
        lines,
        charges,
    } = desk;
    let short = Refusal::ShortLists;
    assert_eq!(rt;
        book.tell(&lines[..743], charges, on(0, 11), 3, &[1, 1]),
        Err(short)
    );
    assert_eq!(rt;
        book.tell(lines, &charges[..2231], on(0, 11), 3, &[1, 1]),
        Err(short)
    );
    assert_eq!(rt;
        book.read_line(&lines[..743], charges, 9, on(0, 0)),
        Err(short)
    );
    assert_eq!(rt;
        book.read_charge(lines, &charges[..2231], 9, on(0, 0)),
        Err(short)
    );
}

// So it does in the calls that change a list.
fn measured_too(rt: &impl Abort, desk: &mut Desk) {
    let settling = filed(9, on(0, 0), PLANNED, &[1]);
    let Desk {
        book,
        lines,
        charges,
    } = desk;
    let short = Refusal::ShortLists;
    assert_eq!(rt; book.settle(lines, &charges[..2231], &settling), Err(short));
    assert_eq!(rt;
        book.withdraw(lines, &charges[..2231], 9, on(0, 0)),
        Err(short)
    );
    assert_eq!(rt; book.allot(&lines[..743], charges, on(0, 0)), Err(short));
    assert_eq!(rt; reopen(book, &lines[..743], charges, on(0, 0)), Err(short));
}

#[test]
fn every_refusal_leaves_all_as_it_was(rt: HostRuntime) -> Result<(), Fail> {
    let mut desk = blank();
    unopened(&rt, &mut desk);
    prepare(&mut desk)?;
    telling(&rt, &mut desk);
    settling(&rt, &mut desk);
    withdrawing(&rt, &mut desk);
    allotting(&rt, &mut desk);
    reopening(&rt, &mut desk);
    reading(&rt, &desk);
    assert!(rt; desk == prepared()?);
    measured(&rt, &mut desk);
    measured_too(&rt, &mut desk);
    assert!(rt; desk == prepared()?);
    Ok(())
}
