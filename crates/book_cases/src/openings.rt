// Openings at their edges.
use crate::may::{OLD, OLD_LINE};
use book::book::Book;
use book::open::Opening;
use book::register::Registration;
use refusal::Refusal;
use std::process::Abort;

// A resource that is in range.
const SOUND: Registration = Registration {
    kind: 4,
    aggregator: 99,
    customers: 16,
};

// An opening that is in range.
const MAY: Opening<'static> = Opening {
    number: 0,
    month: 5,
    classes: &[1; 31],
    first_day: 64,
    buyers: 2,
    resources: &[SOUND],
};

// Tries an opening over lists for one resource and two buyers in a month of 31 days, all filled with old lines; a refused one leaves all as it was.
fn tried(rt: &impl Abort, opening: Opening) -> Result<(), Refusal> {
    let mut book = Book::new();
    let mut lines = [OLD_LINE; 744];
    let mut charges = [OLD; 1488];
    let opened = book.open(opening, &mut lines, &mut charges);
    if opened.is_err() {
        assert!(rt; book == Book::new());
        assert!(rt; lines == [OLD_LINE; 744]);
        assert!(rt; charges == [OLD; 1488]);
    }
    opened
}

// Tries months by their numbers, with days of one class.
fn months(rt: &impl Abort, cases: &[(u32, &[u8], Result<(), Refusal>)]) {
    for (month, classes, expected) in cases {
        let opening = Opening {
            number: u32::MAX,
            month: *month,
            classes,
            ..MAY
        };
        assert_eq!(rt; tried(rt, opening), *expected);
    }
}

#[test]
fn months_and_classes(rt: HostRuntime) {
    months(
        &rt,
        &[
            (0, &[0; 31], Err(Refusal::BadMonth)),
            (1, &[0; 31], Ok(())),
            (12, &[1; 31], Ok(())),
            (13, &[0; 31], Err(Refusal::BadMonth)),
            (5, &[0; 30], Err(Refusal::BadClasses)),
            (5, &[2; 31], Err(Refusal::BadClasses)),
            (4, &[0; 30], Ok(())),
            (4, &[0; 31], Err(Refusal::BadClasses)),
        ],
    );
}

#[test]
fn february(rt: HostRuntime) {
    months(
        &rt,
        &[
            (2, &[0; 27], Err(Refusal::BadClasses)),
            (2, &[0; 28], Ok(())),
            (2, &[0; 29], Ok(())),
            (2, &[0; 30], Err(Refusal::BadClasses)),
        ],
    );
}

#[test]
fn days_resources_and_buyers(rt: HostRuntime) {
    for (first_day, buyers, resources, expected) in [
        (64, 2, &[SOUND; 1][..], Ok(())),
        (65, 0, &[], Err(Refusal::BadFirstDay)),
        (64, 0, &[], Err(Refusal::ResourceCount)),
        (64, 0, &[SOUND; 17], Err(Refusal::ResourceCount)),
        (64, 0, &[SOUND; 16], Err(Refusal::BuyerCount)),
        (64, 9, &[SOUND; 1], Err(Refusal::BuyerCount)),
        (64, 8, &[SOUND; 1], Err(Refusal::ShortLists)),
        (64, 2, &[SOUND; 2], Err(Refusal::ShortLists)),
    ] {
        let opening = Opening {
            first_day,
            buyers,
            resources,
            ..MAY
        };
        assert_eq!(rt; tried(&rt, opening), expected);
    }
}

#[test]
fn kinds_customers_and_aggregators(rt: HostRuntime) {
    let least = Registration { kind: 1, ..SOUND };
    assert_eq!(rt;
        tried(
            &rt,
            Opening {
                resources: &[least],
                ..MAY
            },
        ),
        Ok(())
    );
    for resource in [
        Registration { kind: 0, ..SOUND },
        Registration { kind: 5, ..SOUND },
        Registration {
            customers: 0,
            ..SOUND
        },
        Registration {
            customers: 17,
            ..SOUND
        },
        Registration {
            aggregator: 0,
            ..SOUND
        },
        Registration {
            aggregator: 100,
            ..SOUND
        },
    ] {
        let opening = Opening {
            buyers: 0,
            resources: &[resource],
            ..MAY
        };
        assert_eq!(rt; tried(&rt, opening), Err(Refusal::BadResource));
    }
}
