// The plain reckoning of a source and of a line, apart from the library.
use crate::meters::Meters;
use arrayvec::ArrayVec;
use book::read::LineReading;
use book::settle::Settling;
use load::loads::DayClass;
use load::places::CustomerHour;
use refusal::{Cause, NoFigure, Refusal};
use settlement::terms::{Kind, ResourceHour, Slot, Terms};

// The sorts of sources.
#[derive(Clone, Copy, PartialEq, Eq, Debug)]
pub enum Sort {
    Intervals,
    LeftOutIntervals,
    Registers,
    AdjustedRegisters,
    Filed,
    AdjustedIntervals,
    AdjustedFiled,
}

// The sorts as they are drawn.
pub const SORTS: [Sort; 7] = [
    Sort::Intervals,
    Sort::LeftOutIntervals,
    Sort::Registers,
    Sort::AdjustedRegisters,
    Sort::Filed,
    Sort::AdjustedIntervals,
    Sort::AdjustedFiled,
];

// A method: its text, the class of its days, how many, how many are struck at either end, and its reach.
#[derive(Clone, Copy)]
pub struct Way {
    pub text: &'static str,
    class: DayClass,
    n: usize,
    high: usize,
    low: usize,
    reach: usize,
}

// The methods as they are drawn.
pub const WAYS: [Way; 7] = [
    Way {
        text: "max45",
        class: DayClass::Workday,
        n: 5,
        high: 0,
        low: 1,
        reach: 10,
    },
    Way {
        text: "mid610",
        class: DayClass::Workday,
        n: 10,
        high: 2,
        low: 2,
        reach: 20,
    },
    Way {
        text: "mid46",
        class: DayClass::Workday,
        n: 6,
        high: 1,
        low: 1,
        reach: 12,
    },
    Way {
        text: "mid810",
        class: DayClass::Workday,
        n: 10,
        high: 1,
        low: 1,
        reach: 20,
    },
    Way {
        text: "hmax45",
        class: DayClass::Holiday,
        n: 5,
        high: 0,
        low: 1,
        reach: 10,
    },
    Way {
        text: "hmid610",
        class: DayClass::Holiday,
        n: 10,
        high: 2,
        low: 2,
        reach: 20,
    },
    Way {
        text: "hmid46",
        class: DayClass::Holiday,
        n: 6,
        high: 1,
        low: 1,
        reach: 12,
    },
];

// What a source is made of, and its method.
#[derive(Clone, Copy)]
pub struct Choice {
    pub sort: Sort,
    pub way: Way,
}

// A source as the plain reckoning sees it.
#[derive(Clone, Copy)]
struct PlainSource<'a> {
    meters: &'a Meters,
    choice: Choice,
}

// A reference day by its load, and of equal loads by its number.
#[derive(Clone, Copy, PartialEq, Eq, PartialOrd, Ord, Debug, Default)]
struct Reference {
    load: i64,
    day: u32,
}

// A line by the plain reckoning.
#[derive(Clone, Copy, PartialEq, Eq, Debug)]
pub struct Entry {
    pub plan: i64,
    pub order: i64,
    pub sr: i64,
    pub dr: i64,
    pub dlr: i64,
    pub slr: i64,
    pub paid: i64,
    pub fined: i64,
}

impl From<LineReading> for Entry {
    fn from(line: LineReading) -> Entry {
        Entry {
            plan: i64::from(line.plan),
            order: i64::from(line.order),
            sr: line.sr,
            dr: line.dr,
            dlr: i64::try_from(line.dlr).unwrap_or(-1),
            slr: i64::try_from(line.slr).unwrap_or(-1),
            paid: line.paid,
            fined: i64::from(line.fined),
        }
    }
}

impl Sort {
    // Whether the loads come from readings.
    fn is_counted(self) -> bool {
        matches!(self, Sort::Registers | Sort::AdjustedRegisters)
    }

    // Whether marked days are left out.
    fn leaves_out(self) -> bool {
        matches!(self, Sort::LeftOutIntervals | Sort::AdjustedRegisters)
    }

    // Whether the baselines are filed.
    fn is_filed(self) -> bool {
        matches!(self, Sort::Filed | Sort::AdjustedFiled)
    }

    // Whether the baselines are adjusted.
    fn is_adjusted(self) -> bool {
        matches!(
            self,
            Sort::AdjustedRegisters | Sort::AdjustedIntervals | Sort::AdjustedFiled
        )
    }
}

// The place of an hour in a list that goes customer by customer, day by day and hour by hour.
fn place_of(asked: CustomerHour) -> Option<usize> {
    let CustomerHour {
        customer,
        day,
        hour,
    } = asked;
    ((customer as usize * 96 + day as usize) * 24 + hour as usize).checked_sub(1)
}

// A load that is not too great.
fn load_of(load: u32) -> Option<i64> {
    if load > 20_000_000 {
        return None;
    }
    Some(i64::from(load))
}

// A sum over a count, a half or more rounded up.
fn mean(sum: i64, count: i64) -> i64 {
    if count <= 0 || sum < 0 {
        return 0;
    }
    let whole = sum / count;
    let rest = sum % count;
    if rest.saturating_mul(2) >= count {
        whole.saturating_add(1)
    } else {
        whole
    }
}

// A third: two thirds over are rounded up, one third over is dropped.
fn third(gap: i64) -> i64 {
    let whole = gap.div_euclid(3);
    if gap.rem_euclid(3) == 2 {
        whole.saturating_add(1)
    } else {
        whole
    }
}

// An energy at a price, in whole won.
fn money(energy: i64, price: u32) -> i64 {
    energy.saturating_mul(i64::from(price)).div_euclid(100_000)
}

impl Meters {
    // A load in the record of intervals.
    fn interval(&self, asked: CustomerHour) -> Option<i64> {
        let load = self.loads.get(place_of(asked)?)?;
        load_of(*load)
    }

    // A load in the record of readings.
    fn counted(&self, asked: CustomerHour) -> Option<i64> {
        let CustomerHour {
            customer,
            day,
            hour,
        } = asked;
        let place = customer as usize * 2305 + day as usize * 24 + hour as usize;
        let before = *self.readings.get(place.checked_sub(1)?)?;
        let after = *self.readings.get(place)?;
        if before >= 1_000_000_000 || after >= 1_000_000_000 {
            return None;
        }
        if after >= before {
            load_of(after - before)
        } else {
            load_of(1_000_000_000 - before + after)
        }
    }

    // The class of a day.
    fn class_on(&self, day: u32) -> DayClass {
        match self.classes.get(day as usize) {
            Some(0) => DayClass::Workday,
            Some(1) => DayClass::Holiday,
            _ => DayClass::Neither,
        }
    }

    // A filed baseline, or its cause.
    fn filed_at(&self, asked: CustomerHour) -> Result<i64, Cause> {
        let place = place_of(asked).ok_or(Cause::OutOfRange)?;
        match self.filed.get(place) {
            Some(filed) if -40_000_000 <= *filed && *filed <= 40_000_000 => Ok(i64::from(*filed)),
            _ => Err(Cause::MissingLoad),
        }
    }
}

impl PlainSource<'_> {
    // A metered load.
    fn metered(&self, asked: CustomerHour) -> Option<i64> {
        if self.choice.sort.is_counted() {
            self.meters.counted(asked)
        } else {
            self.meters.interval(asked)
        }
    }

    // A day with its load, if it may be a reference day.
    fn reference(&self, asked: CustomerHour, day: u32) -> Option<Reference> {
        if self.choice.sort.leaves_out() && self.meters.left.get(day as usize) == Some(&1) {
            return None;
        }
        let load = self.metered(CustomerHour { day, ..asked })?;
        Some(Reference { load, day })
    }

    // The reference days, the lowest first.
    fn days_for(&self, asked: CustomerHour) -> Result<ArrayVec<Reference, 10>, Cause> {
        let way = self.choice.way;
        let mut days = ArrayVec::new();
        let nearest = (0..asked.day)
            .rev()
            .filter(|day| self.meters.class_on(*day) == way.class)
            .take(way.reach);
        for day in nearest {
            if days.len() < way.n {
                if let Some(reference) = self.reference(asked, day) {
                    let _ = days.try_push(reference);
                }
            }
        }
        if days.len() < way.n {
            return Err(Cause::TooFewDays);
        }
        days.sort_unstable();
        Ok(days)
    }

    // The mean in an hour over the days that are left once the lowest and the highest are struck.
    fn mean_of(&self, days: &[Reference], asked: CustomerHour) -> Result<i64, Cause> {
        let way = self.choice.way;
        let left = way.n.saturating_sub(way.high).saturating_sub(way.low);
        let mut sum: i64 = 0;
        let mut count: i64 = 0;
        for reference in days.iter().skip(way.low).take(left) {
            let day = reference.day;
            let load = self
                .metered(CustomerHour { day, ..asked })
                .ok_or(Cause::MissingLoad)?;
            sum = sum.saturating_add(load);
            count = count.saturating_add(1);
        }
        Ok(mean(sum, count))
    }

    // The profile, or its cause.
    fn profile(&self, asked: CustomerHour, at: u32) -> Result<i64, Cause> {
        if self.choice.sort.is_filed() {
            return Err(Cause::MissingLoad);
        }
        if asked.hour > 24 {
            return Err(Cause::OutOfRange);
        }
        let days = self.days_for(asked)?;
        self.mean_of(&days, CustomerHour { hour: at, ..asked })
    }

    // What is metered less the profile in the three hours before a start, if all of it is there.
    fn gap_before(&self, start: CustomerHour) -> Option<i64> {
        let mut gap: i64 = 0;
        for back in [4, 3, 2] {
            let at = start.hour.checked_sub(back)?;
            let load = self.metered(CustomerHour { hour: at, ..start })?;
            let profile = self.profile(start, at).ok()?;
            gap = gap.saturating_add(load).saturating_sub(profile);
        }
        Some(gap)
    }

    // What a day's first order adds to the baselines of the day.
    fn added(&self, asked: CustomerHour) -> i64 {
        let start = self.meters.starts.get(asked.day as usize);
        let start = start.copied().unwrap_or(0);
        if !self.choice.sort.is_adjusted() || start < 5 {
            return 0;
        }
        let first = CustomerHour {
            hour: u32::from(start),
            ..asked
        };
        self.gap_before(first).map_or(0, third)
    }

    // The baseline, or its cause.
    fn baseline(&self, asked: CustomerHour) -> Result<i64, Cause> {
        let below = if self.choice.sort.is_filed() {
            self.meters.filed_at(asked)?
        } else {
            self.profile(asked, asked.hour)?
        };
        let added = self.added(asked);
        Ok(below.saturating_add(added).clamp(-40_000_000, 40_000_000))
    }

    // A customer's cut, or its cause.
    fn cut(&self, asked: CustomerHour) -> Result<i64, Cause> {
        let baseline = self.baseline(asked)?;
        let load = self.metered(asked).ok_or(Cause::MissingLoad)?;
        Ok(baseline.saturating_sub(load))
    }

    // The cuts of the customers whose mark is 1 added up, or the first without one.
    fn cuts(&self, hour: ResourceHour, marks: &[u8]) -> Result<i64, NoFigure> {
        let mut sum: i64 = 0;
        for (customer, mark) in (0..hour.portfolio.customers).zip(marks) {
            if *mark == 1 {
                let asked = CustomerHour {
                    customer,
                    day: hour.slot.day,
                    hour: hour.slot.hour,
                };
                let cut = self
                    .cut(asked)
                    .map_err(|cause| NoFigure { customer, cause })?;
                sum = sum.saturating_add(cut);
            }
        }
        Ok(sum)
    }
}

impl Meters {
    // A source as the plain reckoning sees it.
    fn plain(&self, choice: Choice) -> PlainSource<'_> {
        PlainSource {
            meters: self,
            choice,
        }
    }

    // The line of a settling, or why there is none.
    pub fn line(
        &self,
        hour: ResourceHour,
        settling: &Settling<Choice, Choice>,
    ) -> Result<Entry, Refusal> {
        may_settle(hour)?;
        let mut sr = 0;
        if hour.terms.plan > 0 {
            let source = self.plain(*settling.scheduled);
            sr = source
                .cuts(hour, settling.marks)
                .map_err(Refusal::Scheduled)?;
        }
        let mut dr = 0;
        if hour.terms.order > 0 {
            let source = self.plain(*settling.mandatory);
            dr = source.cuts(hour, &[1; 16]).map_err(Refusal::Mandatory)?;
        }
        Ok(figures(hour.terms, sr, dr))
    }
}

// Whether an order may stand in an hour.
fn may_order(kind: Kind, slot: Slot) -> bool {
    match kind {
        Kind::Standard | Kind::SmallMedium => {
            let hours = [10, 11, 12, 14, 15, 16, 17, 18, 19, 20];
            slot.class == DayClass::Workday && hours.contains(&slot.hour)
        }
        Kind::StandardHoliday | Kind::SmallMediumHoliday => {
            let months = [3, 4, 5, 9, 10, 11];
            let hours = [11, 12, 13, 14, 15, 16, 17];
            slot.class == DayClass::Holiday
                && months.contains(&slot.month)
                && hours.contains(&slot.hour)
        }
    }
}

// Why an hour may not be settled by its terms, if it may not.
fn may_settle(hour: ResourceHour) -> Result<(), Refusal> {
    let terms = hour.terms;
    if terms.plan == 0 && terms.order == 0 {
        return Err(Refusal::NeitherPlanNorOrder);
    }
    let prices = terms.smp.max(terms.mgp);
    if terms.plan > 640_000_000 || terms.order > 500_000_000 || prices > 200_000 {
        return Err(Refusal::AboveLimit);
    }
    if terms.order == 0 {
        if terms.emergency || terms.test {
            return Err(Refusal::MarkWithoutOrder);
        }
    } else if !may_order(hour.portfolio.kind, hour.slot) {
        return Err(Refusal::OutsideOrderHours);
    }
    Ok(())
}

// The figures of a line.
fn figures(terms: Terms, sr: i64, dr: i64) -> Entry {
    let plan = i64::from(terms.plan);
    let order = i64::from(terms.order);
    let most = order.saturating_mul(6).div_euclid(5);
    let reached = dr.max(0);
    let dlr = if terms.emergency {
        reached
    } else {
        reached.min(most)
    };
    let slr = sr.saturating_sub(dlr).max(0).min(plan);
    let short = plan.saturating_sub(sr.max(0).min(plan));
    let price = if terms.test { terms.smp } else { terms.mgp };
    Entry {
        plan,
        order,
        sr,
        dr,
        dlr,
        slr,
        paid: money(slr, terms.smp).saturating_add(money(dlr, price)),
        fined: money(short, terms.smp),
    }
}
