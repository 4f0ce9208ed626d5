// An hour of the month, as a call names it and as the book numbers it.
ghost use Rattle.std.specs.Prelude.{◌<◌};

// A day of the month from 1 on, and an hour of the day from 1 to 24.
#[derive(Clone, Copy, PartialEq, Eq, Debug)]
pub struct MonthHour {
    pub day: u32,
    pub hour: u32,
}

// The number of an hour that the book has a place for, from 0 on.
#[derive(Clone, Copy)]
pub(crate) struct HourNumber {
    pub(crate) number: u32,
    ghost within: { number < 744 },
}
