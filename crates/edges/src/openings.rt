// Openings at their edges.
use crate::may::{MAY, STANDARD, blank};
use crate::outcome::Tally;
use book::book::Book;
use book::open::Opening;
use book::register::Registration;
use refusal::Refusal;
use table::lines::BuyerLine;

// A resource as it is named.
fn named(kind: u32, aggregator: u32, customers: u32) -> Registration {
    Registration {
        kind,
        aggregator,
        customers,
    }
}

// Months and the lengths of their classes.
pub fn months(tally: &mut Tally) -> anyhow::Result<()> {
    let days = [0; 32];
    for (what, month, classes, expected) in [
        ("month 0", 0, &days[..31], Err(Refusal::BadMonth)),
        ("month 1 with 31 days", 1, &days[..31], Ok(())),
        (
            "month 1 with 30 days",
            1,
            &days[..30],
            Err(Refusal::BadClasses),
        ),
        ("month 1 with 32 days", 1, &days, Err(Refusal::BadClasses)),
        (
            "February with 27 days",
            2,
            &days[..27],
            Err(Refusal::BadClasses),
        ),
        ("February with 28 days", 2, &days[..28], Ok(())),
        ("February with 29 days", 2, &days[..29], Ok(())),
        (
            "February with 30 days",
            2,
            &days[..30],
            Err(Refusal::BadClasses),
        ),
        ("April with 30 days", 4, &days[..30], Ok(())),
        (
            "April with 31 days",
            4,
            &days[..31],
            Err(Refusal::BadClasses),
        ),
        ("month 12 with 31 days", 12, &days[..31], Ok(())),
        ("month 13", 13, &days[..31], Err(Refusal::BadMonth)),
        (
            "month 13 with no days: 1 comes before 2",
            13,
            &[],
            Err(Refusal::BadMonth),
        ),
    ] {
        let mut desk = blank();
        let opening = Opening {
            month,
            classes,
            ..MAY
        };
        tally.note(what, expected, desk.open(opening))?;
    }
    let mut desk = blank();
    for (what, month, classes, resource, expected) in [
        (
            "a class byte of 2",
            2,
            [2; 28],
            STANDARD,
            Err(Refusal::BadClasses),
        ),
        ("opened after a refusal", 2, [1; 28], STANDARD, Ok(())),
        (
            "opened again: 9 comes before all",
            0,
            [2; 28],
            named(9, 12, 9),
            Err(Refusal::AlreadyOpened),
        ),
    ] {
        let opening = Opening {
            month,
            classes: &classes,
            resources: &[resource],
            ..MAY
        };
        tally.note(what, expected, desk.open(opening))?;
    }
    Ok(())
}

// Kinds, customers and aggregators.
pub fn resources(tally: &mut Tally) -> anyhow::Result<()> {
    for (what, resource, expected) in [
        ("kind 0", named(0, 12, 1), Err(Refusal::BadResource)),
        ("kind 1", named(1, 12, 1), Ok(())),
        ("kind 4", named(4, 12, 1), Ok(())),
        ("kind 5", named(5, 12, 1), Err(Refusal::BadResource)),
        ("aggregator 0", named(1, 0, 1), Err(Refusal::BadResource)),
        ("aggregator 1", named(1, 1, 1), Ok(())),
        ("aggregator 99", named(1, 99, 1), Ok(())),
        (
            "aggregator 100",
            named(1, 100, 1),
            Err(Refusal::BadResource),
        ),
        ("no customer", named(1, 12, 0), Err(Refusal::BadResource)),
        ("16 customers", named(1, 12, 16), Ok(())),
        ("17 customers", named(1, 12, 17), Err(Refusal::BadResource)),
    ] {
        let mut desk = blank();
        let opening = Opening {
            first_day: 0,
            buyers: 1,
            resources: &[resource],
            ..MAY
        };
        tally.note(what, expected, desk.open(opening))?;
    }
    Ok(())
}

// Which of the two lists that an opening gets is a place too short for 16 resources or 8 buyers.
#[derive(Clone, Copy)]
enum Short {
    Neither,
    Lines,
    Both,
}

// What an opening comes to over lists with room for 16 resources and 8 buyers, or a place too short for them.
fn opened(opening: Opening, short: Short) -> Result<(), Refusal> {
    let mut lines = [None; 11_904];
    let mut charges = [BuyerLine {
        charge: 0,
        refund: 0,
    }; 5_952];
    let (lines_end, charges_end) = match short {
        Short::Neither => (11_904, 5_952),
        Short::Lines => (11_903, 5_952),
        Short::Both => (11_903, 5_951),
    };
    Book::new().open(
        opening,
        &mut lines[..lines_end],
        &mut charges[..charges_end],
    )
}

// First day, counts of resources and buyers, and the lists' measure.
pub fn counts(tally: &mut Tally) -> anyhow::Result<()> {
    let sound = [STANDARD; 17];
    let bad = [Registration {
        kind: 5,
        ..STANDARD
    }; 17];
    let may = Opening {
        first_day: 0,
        buyers: 1,
        ..MAY
    };
    for (what, opening, short, expected) in [
        (
            "first day 64",
            Opening {
                first_day: 64,
                ..may
            },
            Short::Neither,
            Ok(()),
        ),
        (
            "first day 65",
            Opening {
                first_day: 65,
                ..may
            },
            Short::Neither,
            Err(Refusal::BadFirstDay),
        ),
        (
            "no resource",
            Opening {
                resources: &[],
                ..may
            },
            Short::Neither,
            Err(Refusal::ResourceCount),
        ),
        (
            "16 resources and 8 buyers over lists as long as the measure",
            Opening {
                buyers: 8,
                resources: &sound[..16],
                ..may
            },
            Short::Neither,
            Ok(()),
        ),
        (
            "17 resources",
            Opening {
                resources: &sound,
                ..may
            },
            Short::Neither,
            Err(Refusal::ResourceCount),
        ),
        (
            "no buyer",
            Opening { buyers: 0, ..may },
            Short::Neither,
            Err(Refusal::BuyerCount),
        ),
        (
            "9 buyers",
            Opening { buyers: 9, ..may },
            Short::Neither,
            Err(Refusal::BuyerCount),
        ),
        (
            "a list of lines one place short",
            Opening {
                resources: &sound[..16],
                ..may
            },
            Short::Lines,
            Err(Refusal::ShortLists),
        ),
        (
            "a list of charges one place short",
            Opening {
                buyers: 8,
                resources: &sound[..15],
                ..may
            },
            Short::Both,
            Err(Refusal::ShortLists),
        ),
        (
            "3 comes before 4",
            Opening {
                first_day: 65,
                resources: &[],
                ..may
            },
            Short::Neither,
            Err(Refusal::BadFirstDay),
        ),
        (
            "4 comes before 5",
            Opening {
                resources: &bad,
                ..may
            },
            Short::Neither,
            Err(Refusal::ResourceCount),
        ),
        (
            "5 comes before 6",
            Opening {
                buyers: 0,
                resources: &bad[..1],
                ..may
            },
            Short::Neither,
            Err(Refusal::BadResource),
        ),
        (
            "6 comes before 7",
            Opening {
                buyers: 9,
                resources: &sound[..16],
                ..may
            },
            Short::Both,
            Err(Refusal::BuyerCount),
        ),
    ] {
        tally.note(what, expected, opened(opening, short))?;
    }
    Ok(())
}
