// Prints the usual load of each customer in each hour of a day, and the money of an hour: the text on standard input, the method as the argument.
#![tactic(auto)]

use anyhow::{Context, Result};
use baseline::method::Method;
use baseline::source::BaselineSource;
use load::loads::LoadRecord;
use load::places::CustomerHour;
use refusal::Refusal;
use report::hour::Purchases;
use report::meter::Meter;
use report::request::Request;
use report::usual::usual_load;
use settlement::terms::Line;
use std::env;
use std::io::Read;

// Prints a row for each customer and hour.
fn print_rows<S: BaselineSource>(
    rt: &HostRuntime,
    source: &S,
    customers: u32,
    day: u32,
) -> Result<()> {
    for customer in 0..customers {
        for hour in 1..=24 {
            let asked = CustomerHour {
                customer,
                day,
                hour,
            };
            match usual_load(source, asked) {
                Ok(usual) => println!(rt; "customer={customer} hour={hour} {usual}")?,
                Err(cause) => {
                    let number = cause.number();
                    println!(rt; "customer={customer} hour={hour} cause={number}")?
                }
            }
        }
    }
    Ok(())
}

// What is paid for a line's plan and order.
fn paid_for(line: &Line) -> i64 {
    i64::from(line.plan_pay) + i64::from(line.order_pay)
}

// Prints the line of an hour.
fn print_line(rt: &HostRuntime, line: &Line) -> Result<()> {
    let paid = paid_for(line);
    println!(rt;
        "plan={} order={} sr={} dr={} dlr={} slr={} paid={} fined={}",
        line.plan, line.order, line.sr, line.dr, line.dlr, line.slr, paid, line.fined
    )?;
    Ok(())
}

// Prints why an hour's line is refused.
fn print_refusal(rt: &HostRuntime, refusal: Refusal) -> Result<()> {
    let number = refusal.number();
    match refusal {
        Refusal::Scheduled(lacking) | Refusal::Mandatory(lacking) => println!(rt;
            "refused={} customer={} cause={}",
            number,
            lacking.customer,
            lacking.cause.number()
        )?,
        _ => println!(rt; "refused={number}")?,
    }
    Ok(())
}

// Prints what each buyer is charged and refunded for a line.
fn print_shares(rt: &HostRuntime, line: &Line, purchases: Purchases) -> Result<()> {
    let charges = purchases.shares_of(paid_for(line));
    let refunds = purchases.shares_of(i64::from(line.fined));
    if let (Some(charges), Some(refunds)) = (charges, refunds) {
        let shares = charges.iter().zip(&refunds);
        for (buyer, (charge, refund)) in shares.take(purchases.buyers).enumerate() {
            println!(rt; "buyer={buyer} charge={charge} refund={refund}")?;
        }
    }
    Ok(())
}

// Prints the rows of the day by a method over a record, and the line and shares of the hour that the text settles.
fn print_report<R: LoadRecord + Drop>(
    rt: &HostRuntime,
    request: &Request,
    record: R,
    method: Method,
) -> Result<()> {
    let day = request.day();
    let class = record.class(day);
    let source = request.source(record, method);
    println!(rt; "day={day}")?;
    print_rows(rt, &source, request.customers(), day)?;
    let Some(settling) = request.settling() else {
        return Ok(());
    };
    let hour = settling.hour;
    println!(rt; "hour={hour}")?;
    match settling.line(&source, request.customers(), day, class) {
        Ok(line) => {
            print_line(rt, &line)?;
            if let Some(purchases) = request.purchases() {
                print_shares(rt, &line, purchases)?;
            }
            Ok(())
        }
        Err(refusal) => print_refusal(rt, refusal),
    }
}

fn run(rt: &HostRuntime) -> Result<()> {
    let method = env::args(rt)?.nth(1).context("name a method")?;
    let method: Method = method.as_str().parse()?;
    let mut text = String::new(rt.alloc());
    rt.stdin().read_to_string(&mut text)?;
    let request = Request::new(rt.alloc())?.read(text.as_str())?;
    match request.meter() {
        Some(Meter::Readings) => print_report(rt, &request, request.registers(), method),
        Some(Meter::Loads) | None => print_report(rt, &request, request.intervals(), method),
    }
}

fn main(rt: HostRuntime) -> Result<()> {
    run(&rt)
}
