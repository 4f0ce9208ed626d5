// What a source says of one customer's hour.
ghost use Rattle.std.specs.Prelude.{◌≡◌};
ghost use Rattle.report.specs.Usual.{usual_of};

use baseline::source::BaselineSource;
use load::places::CustomerHour;
use refusal::Cause;
use std::fmt;

// The usual load, the metered one, and the usual less the metered, in Wh.
#[derive(Clone, Copy, PartialEq, Eq, Debug)]
pub struct Usual {
    pub baseline: i32,
    pub metered: u32,
    pub cut: i64,
}

// The usual load of a customer's hour, or why there is none.
pub fn usual_load<S: BaselineSource>(source: &S, asked: CustomerHour) -> Result<Usual, Cause>
    ensures value { result ≡ usual_of (S.meaning source.now) asked.customer asked.day asked.hour }
{
    let baseline = source.baseline(asked)?;
    let metered = source.metered(asked).ok_or(Cause::MissingLoad)?;
    Ok(Usual {
        baseline,
        metered,
        cut: i64::from(baseline) - i64::from(metered),
    })
}

impl fmt::Display for Usual {
    fn fmt<W: fmt::Write>(&self, f: &mut fmt::Formatter<W>) -> fmt::Result {
        let baseline = self.baseline;
        let metered = self.metered;
        let cut = self.cut;
        write!(f, "baseline={baseline} metered={metered} cut={cut}")
    }
}
