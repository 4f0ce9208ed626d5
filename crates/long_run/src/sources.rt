// A source of any sort.
use crate::meters::Meters;
use crate::plain::{Sort, Way};
use baseline::adjusted::Adjusted;
use baseline::filed::FiledSource;
use baseline::method::Method;
use baseline::ranked::Ranked;
use baseline::source::BaselineSource;
use load::interval::IntervalRecord;
use load::left_out::LeftOut;
use load::places::CustomerHour;
use load::register::RegisterRecord;
use refusal::{Cause, Refusal};

// A source of each sort; three stand on a record or a source that is lent to them.
#[derive(Drop)]
pub enum Source<'a> {
    Intervals(Ranked<IntervalRecord<'a>>),
    LeftOutIntervals(Ranked<LeftOut<'a, &'a IntervalRecord<'a>>>),
    Registers(Ranked<RegisterRecord<'a>>),
    AdjustedRegisters(Adjusted<'a, Ranked<LeftOut<'a, &'a RegisterRecord<'a>>>>),
    Filed(FiledSource<'a>),
    AdjustedIntervals(Adjusted<'a, &'a Ranked<IntervalRecord<'a>>>),
    AdjustedFiled(Adjusted<'a, FiledSource<'a>>),
}

// What the source that a value holds answers.
macro_rules! answer {
    ($source:expr, $held:ident => $answer:expr) => {
        match $source {
            Source::Intervals($held) => $answer,
            Source::LeftOutIntervals($held) => $answer,
            Source::Registers($held) => $answer,
            Source::AdjustedRegisters($held) => $answer,
            Source::Filed($held) => $answer,
            Source::AdjustedIntervals($held) => $answer,
            Source::AdjustedFiled($held) => $answer,
        }
    };
}

impl BaselineSource for Source<'_> {
    ghost use Rattle.long_run.specs.Sources.{held_meaning};

    ghost meaning = { held_meaning };

    fn metered(&self, asked: CustomerHour) -> Option<u32> {
        answer!(self, held => held.metered(asked))
    }

    fn profile(&self, asked: CustomerHour, at: u32) -> Result<u32, Cause> {
        answer!(self, held => held.profile(asked, at))
    }

    fn baseline(&self, asked: CustomerHour) -> Result<i32, Cause> {
        answer!(self, held => held.baseline(asked))
    }
}

// What a source by a method stands on: the meters, their two records, and the ranked source over the intervals.
#[derive(Drop)]
pub struct Base<'a> {
    meters: &'a Meters,
    method: Method,
    intervals: IntervalRecord<'a>,
    registers: RegisterRecord<'a>,
    ranked: Ranked<IntervalRecord<'a>>,
}

impl Meters {
    // The loads as intervals.
    fn intervals(&self) -> IntervalRecord<'_> {
        IntervalRecord {
            loads: &self.loads,
            classes: &self.classes,
        }
    }

    // The loads as register readings.
    fn registers(&self) -> RegisterRecord<'_> {
        RegisterRecord {
            readings: &self.readings,
            classes: &self.classes,
        }
    }

    // Baselines and loads as filed.
    fn filings(&self) -> FiledSource<'_> {
        FiledSource {
            baselines: &self.filed,
            loads: &self.loads,
        }
    }

    // A record without the days that are marked.
    fn standing<R>(&self, below: R) -> LeftOut<'_, R> {
        LeftOut {
            below,
            marks: &self.left,
        }
    }

    // A source whose baselines are adjusted.
    fn adjusted<S>(&self, below: S) -> Adjusted<'_, S> {
        Adjusted {
            below,
            starts: &self.starts,
        }
    }

    // What the sources of a way stand on.
    pub fn base(&self, way: Way) -> Result<Base<'_>, Refusal> {
        let method = way.text.parse::<Method>()?;
        Ok(Base {
            meters: self,
            method,
            intervals: self.intervals(),
            registers: self.registers(),
            ranked: Ranked::new(self.intervals(), method),
        })
    }
}

impl<'a> Base<'a> {
    // The source of a sort.
    pub fn source(&'a self, sort: Sort) -> Source<'a> {
        let meters = self.meters;
        match sort {
            Sort::Intervals => Source::Intervals(Ranked::new(meters.intervals(), self.method)),
            Sort::LeftOutIntervals => {
                let standing = meters.standing(&self.intervals);
                Source::LeftOutIntervals(Ranked::new(standing, self.method))
            }
            Sort::Registers => Source::Registers(Ranked::new(meters.registers(), self.method)),
            Sort::AdjustedRegisters => {
                let ranked = Ranked::new(meters.standing(&self.registers), self.method);
                Source::AdjustedRegisters(meters.adjusted(ranked))
            }
            Sort::Filed => Source::Filed(meters.filings()),
            Sort::AdjustedIntervals => Source::AdjustedIntervals(meters.adjusted(&self.ranked)),
            Sort::AdjustedFiled => Source::AdjustedFiled(meters.adjusted(meters.filings())),
        }
    }
}
