// The hours in which a resource takes orders.
ghost use Rattle.std.specs.Prelude.{◌≡◌, ◌||◌};
ghost use Rattle.settlement.specs.Hours.{from_to, takes_order};

use crate::terms::Kind;
use load::loads::DayClass;

// The first hour in which orders are taken on workdays.
const WORKDAY_FROM: u32 = 10;

// The last hour in which orders are taken on workdays.
const WORKDAY_TO: u32 = 20;

// The hour between them in which none is taken.
const MIDDAY: u32 = 13;

// The first hour in which orders are taken on holidays.
const HOLIDAY_FROM: u32 = 11;

// The last hour in which orders are taken on holidays.
const HOLIDAY_TO: u32 = 17;

// Whether orders are taken on the holidays of a month.
fn is_holiday_month(month: u32) -> bool
    ensures value { result ≡ from_to 3 5 month || from_to 9 11 month }
{
    matches!(month, 3..=5 | 9..=11)
}

// Whether a resource of a kind takes an order on a day of a class, in a month, in an hour.
pub fn takes_order(kind: Kind, class: DayClass, month: u32, hour: u32) -> bool
    ensures value { result ≡ takes_order kind class month hour }
{
    // Stays: the order hours are a `match` over the kind with guards, as the rules list them.
    match kind {
        Kind::Standard | Kind::SmallMedium
            if class == DayClass::Workday
                && (WORKDAY_FROM..=WORKDAY_TO).contains(&hour)
                && hour != MIDDAY => true,
        Kind::StandardHoliday | Kind::SmallMediumHoliday
            if class == DayClass::Holiday
                && is_holiday_month(month)
                && (HOLIDAY_FROM..=HOLIDAY_TO).contains(&hour) => true,
        _ => false,
    }
}
