// The kinds of resources by their numbers.
ghost use Rattle.settlement.specs.Kinds.{KindNumbered};

use crate::terms::Kind;

// A number that no kind has.
#[derive(Clone, Copy, PartialEq, Eq, Debug)]
pub struct UnknownKind(pub u32);

impl TryFrom<u32> for Kind {
    type Error = UnknownKind;

    ghost try_from_gives = { KindNumbered };

    fn try_from(n: u32) -> Result<Self, UnknownKind> {
        match n {
            1 => Ok(Kind::Standard),
            2 => Ok(Kind::SmallMedium),
            3 => Ok(Kind::StandardHoliday),
            4 => Ok(Kind::SmallMediumHoliday),
            _ => Err(UnknownKind(n)),
        }
    }
}
