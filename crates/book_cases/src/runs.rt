// Corrections in orders nobody planned, with figures worked by hand.
use crate::corrections::{correct, offer_elsewhere};
use crate::may::{Desk, OLD, OLD_LINE, PLANNED, on, prepared};
use baseline::filed::FiledSource;
use book::book::Book;
use book::reconcile::Reconciliation;
use refusal::Refusal;
use std::process::Abort;
use std::test::Fail;
use table::lines::BuyerLine;

// Hour 11 of day 1 is corrected by a load of 1,100,000 Wh, with an allotting refused in between.
fn corrected(rt: &impl Abort, desk: &mut Desk) -> Result<(), Refusal> {
    let metered = FiledSource {
        baselines: &[2_000_000; 216],
        loads: &[1_100_000; 216],
    };
    let answers = correct(
        &mut desk.book,
        &mut desk.lines,
        &mut desk.charges,
        on(1, 11),
        PLANNED,
        &metered,
    )?;
    let untimely = Err(Refusal::HourInCorrection);
    assert_eq!(rt; answers, [untimely, Ok(()), Ok(()), Ok(()), Ok(())]);
    Ok(())
}

// The three buyers' charges and refunds from a place on.
fn charged(rt: &impl Abort, desk: &Desk, expected: [(i64, i64); 3]) {
    for (line, (charge, refund)) in desk.charges[30..33].iter().zip(expected) {
        assert_eq!(rt; *line, BuyerLine { charge, refund });
    }
}

// The month comes to these payments and fines, and to charges and refunds alike.
fn comes_to(rt: &impl Abort, desk: &Desk, payments: i128, fines: i128) -> Result<(), Refusal> {
    let sums = desk.reconcile()?;
    let expected = Reconciliation {
        payments,
        fines,
        charges: payments,
        refunds: fines,
    };
    assert!(rt; sums == expected);
    Ok(())
}

// A prepared book, corrected twice, with its other hour allotted then.
#[test]
fn corrections_in_an_order_nobody_planned(rt: HostRuntime) -> Result<(), Fail> {
    let mut desk = prepared()?;
    charged(
        &rt,
        &desk,
        [(32_133, 8_033), (32_133, 8_033), (32_134, 8_034)],
    );
    comes_to(&rt, &desk, 96_400, 24_100)?;
    corrected(&rt, &mut desk)?;
    corrected(&rt, &mut desk)?;
    charged(&rt, &desk, [(0, 0), (43_380, 4_820), (65_070, 7_230)]);
    comes_to(&rt, &desk, 108_450, 12_050)?;
    desk.allot(on(1, 12))?;
    let allotted = BuyerLine {
        charge: 96_400,
        refund: 24_100,
    };
    assert_eq!(rt; desk.charges[34], allotted);
    assert_eq!(rt; desk.charges[2232], OLD);
    comes_to(&rt, &desk, 204_850, 36_150)?;
    Ok(())
}

// Another book refuses the slip of this one, and all is as it was once the slip is spent at home.
#[test]
fn a_slip_is_of_one_book(rt: HostRuntime) -> Result<(), Fail> {
    let mut desk = prepared()?;
    let mut other = Book::new();
    let Desk {
        book,
        lines,
        charges,
    } = &mut desk;
    let answer = offer_elsewhere(
        book,
        lines,
        charges,
        &mut other,
        &[OLD_LINE; 1],
        &mut [OLD; 1],
        on(1, 11),
    )?;
    assert_eq!(rt; answer, Err(Refusal::WrongSlip));
    assert!(rt; other == Book::new());
    assert!(rt; desk == prepared()?);
    Ok(())
}
