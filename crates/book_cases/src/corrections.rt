// Corrections, each with its slip spent at the end.
ghost use Rattle.book.specs.Seen.{named_by, seen};
ghost use Rattle.book.specs.Slips.{Finishes};

use baseline::source::BaselineSource;
use book::book::Book;
use book::month_hour::MonthHour;
use book::settle::Settling;
use book::slip::{RefusedSlip, Slip};
use refusal::Refusal;
use settlement::terms::Terms;
use table::lines::{BuyerLine, ResourceLine};

// Finishes an hour with a slip that is known to be good.
pub(crate) fn finish(book: &mut Book, lines: &[ResourceLine], charges: &mut [BuyerLine], slip: Slip)
    requires { Finishes (seen book.old lines.now charges.old) (named_by slip) }
{
    book.finish(lines, charges, slip).unwrap();
}

// Reopens an hour, tries to allot it, tells, settles, withdraws and settles it again, and finishes it; the answers in between.
pub fn correct<S: BaselineSource>(
    book: &mut Book,
    lines: &mut [ResourceLine],
    charges: &mut [BuyerLine],
    at: MonthHour,
    terms: Terms,
    source: &S,
) -> Result<[Result<(), Refusal>; 5], Refusal> {
    let settling = Settling {
        resource: 0,
        at,
        terms,
        marks: &[1],
        scheduled: source,
        mandatory: source,
    };
    let slip = book.reopen(lines, charges, at)?;
    let untimely = book.allot(lines, charges, at);
    let told = book.tell(lines, charges, at, 10, &[4, 6]);
    let settled = book.settle(lines, charges, &settling);
    let withdrawn = book.withdraw(lines, charges, 0, at);
    let again = book.settle(lines, charges, &settling);
    finish(book, lines, charges, slip);
    Ok([untimely, told, settled, withdrawn, again])
}

// Offers the slip of one book to another, and finishes with it at home if it comes back; the other book's answer.
pub fn offer_elsewhere(
    book: &mut Book,
    lines: &[ResourceLine],
    charges: &mut [BuyerLine],
    other: &mut Book,
    other_lines: &[ResourceLine],
    other_charges: &mut [BuyerLine],
    at: MonthHour,
) -> Result<Result<(), Refusal>, Refusal> {
    let slip = book.reopen(lines, charges, at)?;
    match other.finish(other_lines, other_charges, slip) {
        Ok(()) => Ok(Ok(())),
        Err(RefusedSlip { refusal, slip }) => {
            finish(book, lines, charges, slip);
            Ok(Err(refusal))
        }
    }
}
