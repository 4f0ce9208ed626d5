// Every edge and every misreading of the rules, each with what it should come to and what it comes to.
#![tactic(auto)]

mod calls;
mod lines;
mod may;
mod openings;
mod outcome;
mod records;
mod sheets;
mod slips;
mod sources;

use outcome::Tally;

// Records and sources.
fn of_sources(tally: &mut Tally) -> anyhow::Result<()> {
    records::intervals(tally)?;
    records::registers(tally)?;
    records::left_out(tally)?;
    sources::methods(tally)?;
    sources::means(tally)?;
    sources::reach(tally)?;
    sources::profiles(tally)?;
    sources::filed(tally)?;
    sources::adjusted(tally)?;
    sources::adjusting_days(tally)
}

// Lines, openings and the book's calls.
fn of_books(tally: &mut Tally) -> anyhow::Result<()> {
    lines::order_hours(tally)?;
    lines::limits(tally)?;
    lines::first_tests(tally)?;
    lines::figures(tally)?;
    lines::marks(tally)?;
    openings::months(tally)?;
    openings::resources(tally)?;
    openings::counts(tally)?;
    calls::telling(tally)?;
    calls::lines(tally)?;
    calls::allotting(tally)?;
    calls::shares(tally)?;
    calls::unopened(tally)?;
    calls::lists(tally)?;
    slips::corrections(tally)?;
    slips::other_books(tally)?;
    sheets::sheets(tally)?;
    sheets::head_lines(tally)
}

fn run(rt: &HostRuntime) -> anyhow::Result<()> {
    let mut tally = Tally {
        rt,
        cases: 0,
        differences: 0,
    };
    of_sources(&mut tally)?;
    of_books(&mut tally)?;
    println!(rt; "cases {}, differences {}", tally.cases, tally.differences)?;
    Ok(())
}

fn main(rt: HostRuntime) -> anyhow::Result<()> {
    run(&rt)
}
