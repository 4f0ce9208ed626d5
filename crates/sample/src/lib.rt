// The sample month: one resource of one customer, three buyers, and one hour that is settled from meter readings.
#![tactic(auto)]

ghost use Rattle.std.specs.Prelude.{◌≡◌, ℕ, ◌<◌, slice_index};
ghost use Rattle.sample.specs.Loads.{reference_at, load_at};

use book::month_hour::MonthHour;
use book::open::Opening;
use book::register::Registration;
use settlement::terms::Terms;
use std::array;

// Book 7: May, all workdays, day 1 at the sources' day 5; one resource of kind 1 under aggregator 12 with one customer; three buyers.
pub const OPENING: Opening<'static> = Opening {
    number: 7,
    month: 5,
    classes: &[0; 31],
    first_day: 5,
    buyers: 3,
    resources: &[Registration {
        kind: 1,
        aggregator: 12,
        customers: 1,
    }],
};

// The hour that is settled: hour 11 of day 1.
pub const SETTLED: MonthHour = MonthHour { day: 1, hour: 11 };

// A plan of 1,000,000 Wh at 120.50 won per kWh.
pub const PLANNED: Terms = Terms {
    plan: 1_000_000,
    order: 0,
    emergency: false,
    test: false,
    smp: 12_050,
    mgp: 0,
};

// The classes of the sources' days: all workdays.
pub const CLASSES: [u8; 96] = [0; 96];

// The customer's loads in Wh: 2,000,000 in hour 11 of days 0 to 4, and what was metered in it on day 5.
pub fn loads(metered: u32) -> [u32; 2304]
    ensures value { (place : ℕ) → place < 2304 → slice_index result place ≡ load_at metered place }
{
    let mut loads = array::from_fn(
        |place: usize| -> u32
            ensures { result ≡ reference_at place }
        {
            match (place / 24, place % 24) {
                (0..=4, 10) => 2_000_000,
                _ => 0,
            }
        },
    );
    loads[130] = metered;
    loads
}
