// Some thousands of calls on a month's book, each compared with a plain reckoning, and what they come to.
#![tactic(auto)]

mod audit;
mod calls;
mod counts;
mod draws;
mod ledger;
mod meters;
mod openings;
mod plain;
mod random;
mod readings;
mod resources;
mod sheets;
mod sources;
mod trial;

use audit::Audit;
use book::open::Opening;
use book::reconcile::Reconciliation;
use book::register::Registration;
use calls::{Desk, blank};
use counts::{CALLS, Call, Counts};
use ledger::{HourState, Ledger};
use meters::Meters;
use random::Random;
use refusal::Refusal;
use resources::{FIRST_DAY, MONTH, RESOURCES};
use std::array;
use trial::Trial;

// How many turns there are; a correction is one turn with several calls.
const TURNS: u32 = 8_000;

// Opens a book of three resources and three buyers.
fn open(desk: &mut Desk, number: u32, classes: &[u8]) -> Result<(), Refusal> {
    desk.open(Opening {
        number,
        month: MONTH,
        classes,
        first_day: FIRST_DAY,
        buyers: 3,
        resources: &RESOURCES.map(Registration::from),
    })
}

// A trial as it begins.
fn begin() -> Trial {
    let mut random = Random { state: 20_261_118 };
    let meters = Meters::new(&mut random);
    let classes: [u8; 30] = array::from_fn(|_| u8::from(random.one_in(3)));
    let mut trial = Trial {
        desk: blank(),
        other: blank(),
        audit: Audit {
            ledger: Ledger::new(classes),
            counts: Counts::new(),
        },
        meters,
        random,
        focus: None,
    };
    let counts = &mut trial.audit.counts;
    counts.note(Call::Open, Ok(()), open(&mut trial.desk, 7, &classes));
    counts.note(Call::Open, Ok(()), open(&mut trial.other, 8, &classes));
    trial
}

// Prints the counts.
fn print_counts(rt: &HostRuntime, counts: &Counts) -> anyhow::Result<()> {
    for (call, count) in CALLS.iter().zip(&counts.calls) {
        println!(rt; "{call} calls {count}")?;
    }
    println!(rt; "granted {}", counts.granted)?;
    for (number, count) in counts.refusals.iter().enumerate() {
        if *count > 0 {
            println!(rt; "refusal {number} came {count}")?;
        }
    }
    println!(rt;
        "lines compared {}, charges compared {}",
        counts.compared[Call::ReadLine as usize],
        counts.compared[Call::ReadCharge as usize]
    )?;
    Ok(())
}

// Prints the month's sums.
fn print_sums(rt: &HostRuntime, whose: &str, sums: Reconciliation) -> anyhow::Result<()> {
    println!(rt;
        "{whose}: paid {} fined {} charged {} refunded {}",
        sums.payments, sums.fines, sums.charges, sums.refunds
    )?;
    Ok(())
}

// Prints what the plain reckoning comes to, and what the book says.
fn print_totals(rt: &HostRuntime, trial: &Trial) -> anyhow::Result<()> {
    let ledger = &trial.audit.ledger;
    print_sums(rt, "reckoned", ledger.totals())?;
    if let Ok(sums) = trial.desk.reconcile() {
        print_sums(rt, "the book", sums)?;
    }
    println!(rt;
        "hours allotted {}, in correction {}",
        ledger.hours_in(HourState::Allotted),
        ledger.hours_in(HourState::InCorrection)
    )?;
    Ok(())
}

fn main(rt: HostRuntime) -> anyhow::Result<()> {
    let mut trial = begin();
    for number in 0..TURNS {
        trial.turn(number);
    }
    trial.compare_month();
    print_counts(&rt, &trial.audit.counts)?;
    print_totals(&rt, &trial)?;
    println!(rt; "differences {}", trial.audit.counts.differences)?;
    Ok(())
}
