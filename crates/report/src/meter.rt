// Whether the numbers of a text are hourly loads or register readings.
#[derive(Clone, Copy, PartialEq, Eq, Debug)]
pub enum Meter {
    Loads,
    Readings,
}
