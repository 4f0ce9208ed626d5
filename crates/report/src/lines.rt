// What the numbers of a line say, or what is wrong with them.
ghost use Rattle.std.specs.Prelude.{◌≡◌, ◌+◌, ◌-◌, ◌<◌, ◌≤◌, length, replicate, IfOk, if◌then◌else◌, Some, None, Ok, Err, sum, OnOk, nat_le};
ghost use Rattle.report.specs.Lines.{only_number, days_marked, start_marked, written, has_hour, hour_place, place_for, place_in, mark_in, marks_written, settling_in, purchased, purchases_in};

use crate::fault::Fault;
use crate::hour::{Purchases, Settling};
use crate::meter::Meter;
use load::places::{CustomerHour, is_customer_day, is_hour};
use settlement::terms::{Kind, Terms};

// Customers are 0 to 15.
pub(crate) const CUSTOMERS: u32 = 16;

// Days are 0 to 95.
pub(crate) const DAYS: u32 = 96;

// Hours are 1 to 24.
const HOURS: u32 = 24;

// Readings of one customer: one before the first hour, and one at the end of each.
const READINGS: u32 = 2305;

// The greatest total of an hour's energies, in kWh.
const MOST_ENERGY: u32 = 150_000_000;

// The one number of a line, from `low` to `high`.
pub(crate) fn only_number(numbers: &[u32], low: u32, high: u32) -> Result<u32, Fault>
    ensures value { result ≡ only_number numbers.now low high }
    ensures bounded { IfOk result (λ n. n ≤ high) }
{
    match numbers {
        [] => Err(Fault::TooFewNumbers),
        [number] if !(low..=high).contains(number) => Err(Fault::OutOfRange),
        [number] => Ok(*number),
        _ => Err(Fault::TooManyNumbers),
    }
}

// A table with a byte written at each of some days.
pub(crate) fn days_marked(mut table: [u8; 96], days: &[u32], byte: u8) -> Result<[u8; 96], Fault>
    ensures value { result ≡ days_marked byte days.now table }
{
    if days.is_empty() {
        return Err(Fault::TooFewNumbers);
    }
    for day in days {
        if *day >= DAYS {
            return Err(Fault::OutOfRange);
        }
        table[*day as usize] = byte;
    }
    Ok(table)
}

// A table with the hour written at the day in which the first order starts.
pub(crate) fn start_marked(mut table: [u8; 96], numbers: &[u32]) -> Result<[u8; 96], Fault>
    ensures value { result ≡ start_marked numbers.now table }
{
    match numbers {
        [] | [_] => Err(Fault::TooFewNumbers),
        [day, hour] => {
            if *day >= DAYS || !is_hour(*hour) {
                return Err(Fault::OutOfRange);
            }
            table[*day as usize] = *hour as u8;
            Ok(table)
        }
        _ => Err(Fault::TooManyNumbers),
    }
}

// Where the number of a customer's hour lies; a reading of hour 0 stands at the day's begin.
fn hour_place(meter: Meter, at: CustomerHour) -> Option<usize>
    ensures value { result ≡ (if has_hour meter at.customer at.day at.hour then Some (hour_place meter at.customer at.day at.hour) else None) }
{
    match meter {
        Meter::Loads => at.place(),
        Meter::Readings if is_customer_day(at.customer, at.day) && at.hour <= HOURS => {
            Some((at.customer * READINGS + at.day * HOURS + at.hour) as usize)
        }
        Meter::Readings => None,
    }
}

// The place of the first of some numbers of a customer's day, at most to hour 24.
fn place_for(meter: Meter, first: CustomerHour, count: usize) -> Result<usize, Fault>
    ensures value { result ≡ place_for meter first.customer first.day first.hour count }
    ensures bounded { IfOk result (λ p. p + count ≤ 36880) }
{
    let place = hour_place(meter, first).ok_or(Fault::OutOfRange)?;
    if count > (HOURS + 1 - first.hour) as usize {
        return Err(Fault::TooManyNumbers);
    }
    Ok(place)
}

// The place for a line of customer, day, hour, and numbers from that hour on.
pub(crate) fn place_of(meter: Meter, numbers: &[u32]) -> Result<usize, Fault>
    ensures value { result ≡ place_in meter numbers.now }
    ensures bounded { IfOk result (λ p. p + (length numbers.now - 3) ≤ 36880) }
    ensures some { OnOk result (3 ≤ length numbers.now) }
{
    let [customer, day, hour, _, ..] = numbers else {
        return Err(Fault::TooFewNumbers);
    };
    let first = CustomerHour {
        customer: *customer,
        day: *day,
        hour: *hour,
    };
    place_for(meter, first, numbers.len() - 3)
}

// A mark: 0 or 1.
// Stays: the library has no conversion of a number to a `bool`.
fn mark_of(number: u32) -> Result<bool, Fault>
    ensures value { result ≡ mark_in number }
{
    match number {
        0 => Ok(false),
        1 => Ok(true),
        _ => Err(Fault::OutOfRange),
    }
}

// At most 16 marks, 0 where there is none.
fn marks_of(numbers: &[u32]) -> Result<[u8; 16], Fault>
    requires few { length numbers.now ≤ 16 }
    ensures value { result ≡ marks_written 0 numbers.now (replicate 16 0) }
{
    let mut marks = [0; 16];
    // Stays: over `marks.iter_mut().zip(numbers)` nothing is known of the marks after the loop.
    for (k, number) in numbers.iter().enumerate() {
        marks[k] = u8::from(mark_of(*number)?);
    }
    Ok(marks)
}

// An hour to be settled: hour, kind, month, plan, order, emergency, test, SMP and MGP, then a taking-part mark for each customer.
pub(crate) fn settling_of(numbers: &[u32]) -> Result<Settling, Fault>
    ensures value { result ≡ settling_in numbers.now }
{
    let [
        hour,
        kind,
        month,
        plan,
        order,
        emergency,
        test,
        smp,
        mgp,
        marks @ ..,
    ] = numbers
    else {
        return Err(Fault::TooFewNumbers);
    };
    if marks.len() > 16 {
        return Err(Fault::TooManyNumbers);
    }
    let kind = Kind::try_from(*kind).map_err(|_| Fault::OutOfRange)?;
    Ok(Settling {
        hour: *hour,
        kind,
        month: *month,
        terms: Terms {
            plan: *plan,
            order: *order,
            emergency: mark_of(*emergency)?,
            test: mark_of(*test)?,
            smp: *smp,
            mgp: *mgp,
        },
        marks: marks_of(marks)?,
    })
}

// What is left of a total when numbers are taken from it, of which it must have enough.
fn rest_of(total: u32, taken: &[u32]) -> Result<u32, Fault>
    ensures value { result ≡ (if nat_le (sum taken.now) total then Ok (total - sum taken.now) else Err Fault.OutOfRange) }
{
    taken.iter().try_fold(total, |rest, number| {
        rest.checked_sub(*number).ok_or(Fault::OutOfRange)
    })
}

// The retailer's purchase, then those of at most 7 others.
fn purchased(rest: u32, others: &[u32]) -> Purchases
    requires few { length others.now ≤ 7 }
    ensures value { result ≡ purchased rest others.now }
{
    let mut bought = [0; 8];
    bought[0] = rest;
    bought[1..1 + others.len()].copy_from_slice(others);
    Purchases {
        bought,
        buyers: others.len() + 1,
    }
}

// A total, then what each buyer but the retailer purchased of it; the rest is the retailer's.
pub(crate) fn purchases_of(numbers: &[u32]) -> Result<Purchases, Fault>
    ensures value { result ≡ purchases_in numbers.now }
{
    let [total, others @ ..] = numbers else {
        return Err(Fault::TooFewNumbers);
    };
    if others.len() > 7 {
        return Err(Fault::TooManyNumbers);
    }
    if !(1..=MOST_ENERGY).contains(total) {
        return Err(Fault::OutOfRange);
    }
    let rest = rest_of(*total, others)?;
    Ok(purchased(rest, others))
}
