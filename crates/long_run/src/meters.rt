// What the sources are made of: loads, readings, filed baselines and the tables of days.
use crate::random::Random;
use std::array;

// Four customers, 96 days and 24 hours; a byte for the class, the left-out mark and the first start of each day.
#[derive(Drop)]
pub struct Meters {
    pub loads: [u32; 9216],
    pub readings: [u32; 9220],
    pub filed: [i32; 9216],
    pub classes: [u8; 96],
    pub left: [u8; 96],
    pub starts: [u8; 96],
}

// A load in Wh: few steps, so that equal ones are common, and now and then the greatest or one too great.
fn load(random: &mut Random) -> u32 {
    match random.below(150) {
        0 => 20_000_001,
        1 => 20_000_000,
        _ => random.below(40) * 50_000,
    }
}

// A filed baseline in Wh, now and then at or past a bound.
fn baseline(random: &mut Random) -> i32 {
    match random.below(150) {
        0 => 40_000_001,
        1 => -40_000_001,
        2 => -40_000_000,
        3 => 40_000_000,
        _ => random.below(50) as i32 * 50_000 - 300_000,
    }
}

// A reading after one more hour: the register goes round, and now and then a reading is none.
fn reading(random: &mut Random, before: u32) -> u32 {
    if random.one_in(200) {
        1_000_000_000
    } else {
        before.wrapping_add(load(random)) % 1_000_000_000
    }
}

// Readings, customer by customer.
fn readings(random: &mut Random) -> [u32; 9220] {
    let mut readings = [0; 9220];
    for customer in readings.chunks_mut(2305) {
        let mut count = 990_000_000;
        for place in customer {
            *place = count;
            count = reading(random, count);
        }
    }
    readings
}

// A byte for a day: `first` once in so many, `second` as often, else 0.
fn byte(random: &mut Random, first: u8, second: u8) -> u8 {
    if random.one_in(4) {
        first
    } else if random.one_in(12) {
        second
    } else {
        0
    }
}

// The start hour of a day's first order, 0 on half of the days.
fn start(random: &mut Random) -> u8 {
    if random.one_in(2) {
        random.below(27) as u8
    } else {
        0
    }
}

impl Meters {
    // All of it at random.
    pub fn new(random: &mut Random) -> Meters {
        Meters {
            loads: array::from_fn(|_| load(random)),
            readings: readings(random),
            filed: array::from_fn(|_| baseline(random)),
            classes: array::from_fn(|_| byte(random, 1, 2)),
            left: array::from_fn(|_| byte(random, 1, 7)),
            starts: array::from_fn(|_| start(random)),
        }
    }
}
