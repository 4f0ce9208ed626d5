// A month's book from its opening to the control totals: an hour is settled from meter readings, allotted, and corrected twice.
#![tactic(auto)]

ghost use Rattle.book.specs.Seen.{named_by};
ghost use Rattle.book.specs.Slips.{Finishes};
ghost use Rattle.desk.specs.Keeping.{on_desk};

use baseline::method::Method;
use baseline::ranked::Ranked;
use baseline::source::BaselineSource;
use book::reconcile::Reconciliation;
use book::settle::Settling;
use book::slip::Slip;
use load::interval::IntervalRecord;
use refusal::Refusal;
use sample::{CLASSES, OPENING, PLANNED, SETTLED, loads};
use std::io;
use table::lines::BuyerLine;

// The lists of 31 days, one resource and three buyers.
type Desk = desk::Desk<744, 2232>;

// The settling of the month's one resource in its hour, over one source.
fn settling<S: BaselineSource>(source: &S) -> Settling<'_, S, S> {
    Settling {
        resource: 0,
        at: SETTLED,
        terms: PLANNED,
        marks: &[1],
        scheduled: source,
        mandatory: source,
    }
}

// Finishes the hour with a slip that is known to be good.
fn finish(desk: &mut Desk, slip: Slip)
    requires { Finishes (on_desk desk.old) (named_by slip) }
{
    desk.offer(slip).unwrap();
}

// Reopens the hour, tells other purchases, settles it anew, and finishes it.
fn correct<S: BaselineSource>(desk: &mut Desk, others: &[u32], source: &S) -> Result<(), Refusal> {
    let slip = desk.reopen(SETTLED)?;
    let told = desk.tell(SETTLED, 4, others);
    let settled = desk.settle(&settling(source));
    finish(desk, slip);
    told?;
    settled
}

// Reopens the hour and finishes it as it was, with the slip laid aside in between.
fn look_again(desk: &mut Desk) -> Result<(), Refusal> {
    let slip = desk.reopen(SETTLED)?;
    let mut aside = Some(slip);
    let first = aside.take().unwrap();
    finish(desk, first);
    match aside {
        Some(_other) => unreachable(),
        None => Ok(()),
    }
}

// Tells, settles, and allots the hour.
fn allot<S: BaselineSource>(desk: &mut Desk, others: &[u32], source: &S) -> Result<(), Refusal> {
    desk.tell(SETTLED, 3, others)?;
    desk.settle(&settling(source))?;
    desk.allot(SETTLED)
}

// A source over what the meter read.
fn metered(loads: &[u32], method: Method) -> Ranked<IntervalRecord<'_>> {
    let record = IntervalRecord {
        loads,
        classes: &CLASSES,
    };
    Ranked::new(record, method)
}

// The whole month, and what it comes to; the hour is corrected by another reading of the meter.
fn run() -> Result<Reconciliation, Refusal> {
    let mut desk = Desk::new(None, BuyerLine::default());
    desk.open(OPENING)?;
    let method = "max45".parse()?;
    let first = loads(1_200_000);
    let again = loads(1_100_000);
    allot(&mut desk, &[1, 1], &metered(&first, method))?;
    correct(&mut desk, &[1, 2], &metered(&again, method))?;
    look_again(&mut desk)?;
    desk.reconcile()
}

fn main(rt: HostRuntime) -> io::Result<()> {
    match run() {
        Ok(sums) => println!(rt;
            "payments={} fines={} charges={} refunds={}",
            sums.payments, sums.fines, sums.charges, sums.refunds
        ),
        Err(refusal) => {
            let number = refusal.number();
            println!(rt; "refused={number}")
        }
    }
}
