// Openings at random, sound and unsound.
ghost use Rattle.std.specs.Prelude.{◌≤◌};

use crate::calls::blank;
use crate::counts::{Call, Counts};
use crate::random::Random;
use book::open::Opening;
use book::register::Registration;
use refusal::Refusal;
use std::array;

// The days of a month, February's the longer.
fn days_of(month: u32) -> usize
    ensures bounded { result ≤ 31 }
{
    match month {
        2 => 29,
        4 | 6 | 9 | 11 => 30,
        _ => 31,
    }
}

// A resource in range.
fn registration(random: &mut Random) -> Registration {
    Registration {
        kind: 1 + random.below(4),
        aggregator: 1 + random.below(99),
        customers: 1 + random.below(16),
    }
}

// Resources at random, now and then one out of range.
fn registrations(random: &mut Random) -> [Registration; 17] {
    let mut resources: [Registration; 17] = array::from_fn(|_| registration(random));
    match random.below(30) {
        0 => resources[0].kind = 0,
        1 => resources[0].kind = 5,
        2 => resources[0].aggregator = 0,
        3 => resources[0].aggregator = 100,
        4 => resources[0].customers = 0,
        5 => resources[0].customers = 17,
        _ => {}
    }
    resources
}

// Day classes at random, now and then a byte that is none.
fn classes(random: &mut Random) -> [u8; 33] {
    let mut classes: [u8; 33] = array::from_fn(|_| random.below(2) as u8);
    if random.one_in(12) {
        classes[random.below(33) as usize] = 2;
    }
    classes
}

// How many days an opening of a month has.
fn days(random: &mut Random, month: u32) -> usize
    ensures bounded { result ≤ 32 }
{
    if random.one_in(8) {
        return 27 + random.below(6) as usize;
    }
    days_of(month)
}

// How many resources an opening has.
fn enrolled(random: &mut Random) -> usize
    ensures bounded { result ≤ 17 }
{
    let count = 1 + random.below(3) as usize;
    if random.one_in(10) {
        return random.below(18) as usize;
    }
    count
}

// Whether a resource is in range.
fn is_sound(resource: &Registration) -> bool {
    1 <= resource.kind
        && resource.kind <= 4
        && 1 <= resource.aggregator
        && resource.aggregator <= 99
        && 1 <= resource.customers
        && resource.customers <= 16
}

// Why an opening of a new book over lists of 2,170 and 2,165 is refused, if it is.
fn may_open(opening: Opening) -> Result<(), Refusal> {
    if opening.month == 0 || opening.month > 12 {
        return Err(Refusal::BadMonth);
    }
    let days = opening.classes.len();
    let fits = days == days_of(opening.month) || (opening.month == 2 && days == 28);
    if !fits || opening.classes.iter().any(|class| *class > 1) {
        return Err(Refusal::BadClasses);
    }
    if opening.first_day > 64 {
        return Err(Refusal::BadFirstDay);
    }
    let count = opening.resources.len();
    if count == 0 || count > 16 {
        return Err(Refusal::ResourceCount);
    }
    if !opening.resources.iter().all(is_sound) {
        return Err(Refusal::BadResource);
    }
    if opening.buyers == 0 || opening.buyers > 8 {
        return Err(Refusal::BuyerCount);
    }
    let hours = days.saturating_mul(24);
    let buyers = opening.buyers as usize;
    if hours.saturating_mul(count) > 2170 || hours.saturating_mul(buyers) > 2165 {
        return Err(Refusal::ShortLists);
    }
    Ok(())
}

// Opens a new book, and then again.
pub fn try_open(counts: &mut Counts, random: &mut Random) {
    let mut month = 1 + random.below(12);
    if random.one_in(12) {
        month = random.below(15);
    }
    let days = days(random, month);
    let count = enrolled(random);
    let mut buyers = 1 + random.below(3);
    if random.one_in(10) {
        buyers = random.below(10);
    }
    let mut first_day = random.below(65);
    if random.one_in(12) {
        first_day = 65;
    }
    let classes = classes(random);
    let resources = registrations(random);
    let opening = Opening {
        number: 9,
        month,
        classes: &classes[..days],
        first_day,
        buyers,
        resources: &resources[..count],
    };
    let mut desk = blank();
    let expected = may_open(opening);
    counts.note(Call::Open, expected, desk.open(opening));
    let again = expected.and(Err(Refusal::AlreadyOpened));
    counts.note(Call::Open, again, desk.open(opening));
}
