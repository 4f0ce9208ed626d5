// The book's calls at their edges, each refusal in its order, and the shares.
use crate::may::{BEYOND, Desk, NO_CUTS, PLANNED, allotted, blank, on, opened, settle};
use crate::outcome::Tally;
use book::reconcile::Reconciliation;
use refusal::Refusal;
use settlement::terms::Terms;

// Telling at its edges.
pub fn telling(tally: &mut Tally) -> anyhow::Result<()> {
    let mut desk = allotted()?;
    for (what, at, total, others, expected) in [
        (
            "tell on day 0",
            on(0, 12),
            3,
            [1, 1],
            Err(Refusal::NoSuchHour),
        ),
        (
            "tell on day 32",
            on(32, 12),
            3,
            [1, 1],
            Err(Refusal::NoSuchHour),
        ),
        (
            "tell in hour 0",
            on(1, 0),
            3,
            [1, 1],
            Err(Refusal::NoSuchHour),
        ),
        (
            "tell in hour 25",
            on(1, 25),
            3,
            [1, 1],
            Err(Refusal::NoSuchHour),
        ),
        (
            "tell on the last day in hour 24",
            on(31, 24),
            3,
            [1, 1],
            Ok(()),
        ),
        (
            "tell an allotted hour",
            on(1, 11),
            3,
            [1, 1],
            Err(Refusal::HourAllotted),
        ),
        (
            "tell an allotted hour a total of 0: 11 comes before 12",
            on(1, 11),
            0,
            [1, 1],
            Err(Refusal::HourAllotted),
        ),
        (
            "tell a total of 0",
            on(1, 12),
            0,
            [0, 0],
            Err(Refusal::BadTotal),
        ),
        ("tell a total of 1", on(1, 12), 1, [0, 0], Ok(())),
        (
            "tell a total of 150,000,000",
            on(1, 12),
            150_000_000,
            [1, 1],
            Ok(()),
        ),
        (
            "tell a total of 150,000,001",
            on(1, 12),
            150_000_001,
            [1, 1],
            Err(Refusal::BadTotal),
        ),
        (
            "tell purchases equal to the total",
            on(1, 12),
            3,
            [1, 2],
            Ok(()),
        ),
        (
            "tell purchases one above the total",
            on(1, 12),
            3,
            [2, 2],
            Err(Refusal::PurchasesExceedTotal),
        ),
        (
            "tell purchases that pass 32 bits",
            on(1, 12),
            3,
            [4_294_967_295, 4],
            Err(Refusal::PurchasesExceedTotal),
        ),
    ] {
        tally.note(what, expected, desk.tell(at, total, &others))?;
    }
    for (what, total, others, refusal) in [
        (
            "tell one purchase of two",
            3,
            &[9][..],
            Refusal::PurchaseCount,
        ),
        (
            "tell three purchases of two",
            3,
            &[1, 1, 1],
            Refusal::PurchaseCount,
        ),
        ("12 comes before 13", 0, &[1], Refusal::BadTotal),
    ] {
        tally.note(what, Err(refusal), desk.tell(on(1, 12), total, others))?;
    }
    Ok(())
}

// Settling, withdrawing and reading a line at their edges.
pub fn lines(tally: &mut Tally) -> anyhow::Result<()> {
    let mut desk = allotted()?;
    let nothing = Terms { plan: 0, ..PLANNED };
    for (what, resource, at, terms, refusal) in [
        (
            "settle in hour 25",
            9,
            on(1, 25),
            PLANNED,
            Refusal::NoSuchHour,
        ),
        (
            "settle an unknown resource: 20 comes before 11",
            1,
            on(1, 11),
            PLANNED,
            Refusal::NoSuchResource,
        ),
        (
            "settle an allotted hour: 11 comes before 21",
            0,
            on(1, 11),
            nothing,
            Refusal::HourAllotted,
        ),
    ] {
        tally.note(
            what,
            Err(refusal),
            settle(&mut desk, resource, at, terms, NO_CUTS),
        )?;
    }
    for (what, resource, at, expected) in [
        ("withdraw in hour 0", 9, on(1, 0), Err(Refusal::NoSuchHour)),
        (
            "withdraw of an unknown resource: 20 comes before 11",
            1,
            on(1, 11),
            Err(Refusal::NoSuchResource),
        ),
        (
            "withdraw in an allotted hour",
            0,
            on(1, 11),
            Err(Refusal::HourAllotted),
        ),
        (
            "withdraw where no line stands",
            0,
            on(1, 13),
            Err(Refusal::NoLine),
        ),
        ("withdraw a line", 0, on(1, 12), Ok(())),
        ("withdraw it again", 0, on(1, 12), Err(Refusal::NoLine)),
    ] {
        tally.note(what, expected, desk.withdraw(resource, at))?;
    }
    for (what, resource, at, expected) in [
        (
            "read a line on day 32",
            9,
            on(32, 1),
            Err(Refusal::NoSuchHour),
        ),
        (
            "read a line of an unknown resource",
            1,
            on(1, 13),
            Err(Refusal::NoSuchResource),
        ),
        (
            "read a line where none stands",
            0,
            on(1, 13),
            Err(Refusal::NoLine),
        ),
        ("read a line of an allotted hour", 0, on(1, 11), Ok(())),
    ] {
        tally.note(what, expected, desk.read_line(resource, at).map(|_| ()))?;
    }
    Ok(())
}

// Allotting and reading a charge at their edges.
pub fn allotting(tally: &mut Tally) -> anyhow::Result<()> {
    let mut desk = allotted()?;
    for (what, at, refusal) in [
        ("allot in hour 25", on(1, 25), Refusal::NoSuchHour),
        ("allot an allotted hour", on(1, 11), Refusal::HourAllotted),
        (
            "allot an hour without energies",
            on(1, 12),
            Refusal::NoEnergies,
        ),
    ] {
        tally.note(what, Err(refusal), desk.allot(at))?;
    }
    for (what, buyer, at, expected) in [
        (
            "read a charge in hour 25",
            9,
            on(1, 25),
            Err(Refusal::NoSuchHour),
        ),
        (
            "read a charge of an unknown buyer: 29 comes before 17",
            3,
            on(1, 12),
            Err(Refusal::NoSuchBuyer),
        ),
        (
            "read a charge of an hour not allotted",
            0,
            on(1, 12),
            Err(Refusal::HourNotAllotted),
        ),
        (
            "the retailer's share of 100 over 1, 1, 1 is not given the odd won",
            0,
            on(1, 11),
            Ok(33),
        ),
        ("buyer 1's share of 100 over 1, 1, 1", 1, on(1, 11), Ok(33)),
        ("buyer 2's share of 100 over 1, 1, 1", 2, on(1, 11), Ok(34)),
    ] {
        let charge = desk.read_charge(buyer, at).map(|line| line.charge);
        tally.note(what, expected, charge)?;
    }
    let refund = desk.read_charge(2, on(1, 11)).map(|line| line.refund);
    tally.note("buyer 2's refund where nothing is fined", Ok(0), refund)
}

// Other shares: an amount of so many won as a fine or as pay, over other purchases.
pub fn shares(tally: &mut Tally) -> anyhow::Result<()> {
    for (what, plan, total, others, buyer, expected) in [
        (
            "the retailer's share of 2 over 1, 1, 1",
            20_000,
            3,
            [1, 1],
            0,
            0,
        ),
        ("buyer 1's share of 2 over 1, 1, 1", 20_000, 3, [1, 1], 1, 1),
        ("buyer 2's share of 2 over 1, 1, 1", 20_000, 3, [1, 1], 2, 1),
        (
            "the retailer's share of 100 over 0, 4, 6",
            1_000_000,
            10,
            [4, 6],
            0,
            0,
        ),
        (
            "buyer 1's share of 100 over 0, 4, 6",
            1_000_000,
            10,
            [4, 6],
            1,
            40,
        ),
        (
            "buyer 2's share of 100 over 0, 4, 6",
            1_000_000,
            10,
            [4, 6],
            2,
            60,
        ),
    ] {
        let mut desk = opened(1)?;
        desk.tell(on(1, 11), total, &others)?;
        settle(&mut desk, 0, on(1, 11), Terms { plan, ..PLANNED }, NO_CUTS)?;
        desk.allot(on(1, 11))?;
        let refund = desk.read_charge(buyer, on(1, 11)).map(|line| line.refund);
        tally.note(what, Ok(expected), refund)?;
    }
    Ok(())
}

// A book not yet opened.
pub fn unopened(tally: &mut Tally) -> anyhow::Result<()> {
    let mut desk = blank();
    for (what, answer) in [
        ("unopened: tell", desk.tell(on(1, 1), 3, &[1, 1])),
        (
            "unopened: settle",
            settle(&mut desk, 0, on(1, 1), PLANNED, NO_CUTS),
        ),
        ("unopened: withdraw", desk.withdraw(0, on(1, 1))),
        ("unopened: allot", desk.allot(on(1, 1))),
        (
            "unopened: read a line",
            desk.read_line(0, on(1, 1)).map(|_| ()),
        ),
        (
            "unopened: read a charge",
            desk.read_charge(0, on(1, 1)).map(|_| ()),
        ),
    ] {
        tally.note(what, Err(Refusal::NoSuchHour), answer)?;
    }
    let sums = desk.book.reconcile(&[], &[])?;
    tally.note(
        "unopened: reconcile over no lists gives nothing (1 is yes)",
        true,
        sums == Reconciliation::default(),
    )
}

// Lists shorter than the measure, and what lies beyond it.
pub fn lists(tally: &mut Tally) -> anyhow::Result<()> {
    let mut desk = allotted()?;
    let Desk {
        book,
        lines,
        charges,
    } = &mut desk;
    let short = book.tell(&lines[0..743], charges, on(0, 0), 0, &[]);
    tally.note(
        "743 lines: 7 comes before 10",
        Err(Refusal::ShortLists),
        short,
    )?;
    let short = book.tell(lines, &charges[0..2231], on(1, 12), 3, &[1, 1]);
    tally.note("2,231 charges", Err(Refusal::ShortLists), short)?;
    let whole = book.tell(&lines[0..744], &charges[0..2232], on(1, 12), 3, &[1, 1]);
    tally.note("lists as long as the measure", Ok(()), whole)?;
    let short = book.reconcile(&lines[0..743], charges).map(|_| ());
    tally.note("reconcile over 743 lines", Err(Refusal::ShortLists), short)?;
    tally.note(
        "the place past the measure stays, the last within is emptied (1 is yes)",
        true,
        charges[2232] == BEYOND && charges[2231].charge == 0,
    )?;
    let answer = desk.allot(on(1, 12));
    tally.note(
        "an hour told over lists as long as the measure",
        Ok(()),
        answer,
    )
}
