// How a ranked source chooses its days; a method is had only by its text.
ghost use Rattle.std.specs.Prelude.{◌+◌, ◌<◌, ◌≤◌};

use load::loads::DayClass;

// Of the nearest `reach` days of the class, the first `n` that stand are the reference days; the `high` highest and the `low` lowest are struck.
#[derive(Clone, Copy)]
pub struct Method {
    pub(crate) class: DayClass,
    pub(crate) n: usize,
    pub(crate) high: usize,
    pub(crate) low: usize,
    pub(crate) reach: usize,
    ghost few: { n ≤ 10 },
    ghost kept: { high + low < n },
}
