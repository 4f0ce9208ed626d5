// Corrections: slips handed out, spent, refused and handed back.
ghost use Rattle.book.specs.Seen.{named_by};
ghost use Rattle.std.specs.Fn.{FnOnceReturnsAtMut};
ghost use Rattle.book.specs.Slips.{Finishes, Keeps};
ghost use Rattle.desk.specs.Keeping.{on_desk};
ghost use Rattle.desk.specs.declared.Desk.{Desk};

use crate::may::{Desk, allotted, blank, on};
use crate::outcome::{Outcome, Tally};
use book::month_hour::MonthHour;
use book::slip::{RefusedSlip, Slip};
use refusal::Refusal;

// Finishes an hour with a slip that is known to be good.
fn finish(desk: &mut Desk, slip: Slip)
    requires { Finishes (on_desk desk.old) (named_by slip) }
{
    desk.offer(slip).unwrap();
}

// Reopens an hour, does work that leaves its slip good, and finishes it; what the work came to.
fn corrected<T, F: FnOnce(&mut Desk) -> T>(
    desk: &mut Desk,
    at: MonthHour,
    work: F,
) -> Result<T, Refusal>
    requires callable { F.IsAlwaysCallable work }
    requires keeps { (b c : Desk 745 2233) (answer : T) → FnOnceReturnsAtMut F.FnOnce work b answer c → Keeps (on_desk b) (on_desk c) }
{
    let slip = desk.reopen(at)?;
    let answer = work(desk);
    finish(desk, slip);
    Ok(answer)
}

// Reopens hour 11 of day 1, offers the slip to another book, and finishes with the slip that comes back; none comes back where it is taken.
fn offered(desk: &mut Desk, other: &mut Desk) -> Result<[Outcome; 2], Refusal> {
    let slip = desk.reopen(on(1, 11))?;
    match other.offer(slip) {
        Ok(()) => Ok([Outcome::Granted, Outcome::Missing]),
        Err(RefusedSlip { refusal, slip }) => {
            finish(desk, slip);
            Ok([Outcome::Refused(refusal), Outcome::Granted])
        }
    }
}

// Reopening and finishing at their edges.
pub fn corrections(tally: &mut Tally) -> anyhow::Result<()> {
    let mut desk = allotted()?;
    for (what, at, expected) in [
        ("reopen on day 0", on(0, 11), Err(Refusal::NoSuchHour)),
        (
            "reopen an hour that is not allotted",
            on(1, 12),
            Err(Refusal::HourNotAllotted),
        ),
        ("reopen an allotted hour and finish it", on(1, 11), Ok(())),
        ("reopen and finish it again", on(1, 11), Ok(())),
    ] {
        tally.note(what, expected, corrected(&mut desk, at, |_desk| ()))?;
    }
    let charge = desk.read_charge(2, on(1, 11)).map(|line| line.charge);
    tally.note("buyer 2's charge after that", Ok(34), charge)?;
    let (told, read) = corrected(&mut desk, on(1, 11), |desk| {
        let told = desk.tell(on(1, 11), 10, &[4, 6]);
        (told, desk.read_charge(0, on(1, 11)).map(|line| line.charge))
    })?;
    tally.note("tell an hour in correction", Ok(()), told)?;
    tally.note(
        "read a charge of an hour in correction",
        Err(Refusal::HourNotAllotted),
        read,
    )?;
    let charge = desk.read_charge(1, on(1, 11)).map(|line| line.charge);
    tally.note("buyer 1's charge after the correction", Ok(40), charge)?;
    let answer = corrected(&mut desk, on(1, 11), |desk| desk.allot(on(1, 11)))?;
    tally.note(
        "allot an hour in correction",
        Err(Refusal::HourInCorrection),
        answer,
    )
}

// Slips of another book.
pub fn other_books(tally: &mut Tally) -> anyhow::Result<()> {
    let mut desk = allotted()?;
    let [refused, finished] = offered(&mut desk, &mut blank())?;
    let wrong = Outcome::Refused(Refusal::WrongSlip);
    tally.note("an unopened book is offered a slip", wrong, refused)?;
    tally.note("the slip handed back is good", Outcome::Granted, finished)?;
    let [refused, finished] = offered(&mut desk, &mut allotted()?)?;
    tally.note(
        "a book of the same number whose hour is not in correction is offered a slip",
        wrong,
        refused,
    )?;
    tally.note(
        "the slip handed back is good again",
        Outcome::Granted,
        finished,
    )
}
