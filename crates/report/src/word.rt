// The word that a line begins with.
#[derive(Clone, Copy)]
pub(crate) enum Word {
    Day,
    Customers,
    Workday,
    Holiday,
    LeftOut,
    Start,
    Load,
    Reading,
    Settle,
    Energy,
}
