// What the book should hold, kept apart from it: 30 days, three resources and three buyers.
use crate::meters::Meters;
use crate::plain::{Choice, Entry};
use crate::resources::{FIRST_DAY, MONTH, RESOURCES};
use book::month_hour::MonthHour;
use book::reconcile::Reconciliation;
use book::settle::Settling;
use load::loads::DayClass;
use refusal::Refusal;
use settlement::terms::{Portfolio, ResourceHour, Slot};
use table::lines::BuyerLine;

// How far an hour has come.
#[derive(Clone, Copy, PartialEq, Eq, Debug)]
pub enum HourState {
    Open,
    Allotted,
    InCorrection,
}

// An hour, its purchases if they were told, and its lines.
#[derive(Clone, Copy)]
pub struct HourNote {
    state: HourState,
    purchases: Option<[i64; 3]>,
    entries: [Option<Entry>; 3],
}

// The classes of the month's days, and its hours.
#[derive(Drop)]
pub struct Ledger {
    classes: [u8; 30],
    hours: [HourNote; 720],
}

// What is paid and fined, or charged and refunded, in won.
#[derive(Clone, Copy)]
pub struct Sums {
    pub due: i64,
    pub back: i64,
}

// Nothing added up yet.
const NOTHING: Sums = Sums { due: 0, back: 0 };

impl Sums {
    // These sums with others.
    fn plus(self, other: Sums) -> Sums {
        Sums {
            due: self.due.saturating_add(other.due),
            back: self.back.saturating_add(other.back),
        }
    }
}

// The place of an hour in the month.
fn place_of(at: MonthHour) -> Option<usize> {
    if at.day < 1 || at.day > 30 || at.hour < 1 || at.hour > 24 {
        return None;
    }
    Some((at.day as usize - 1) * 24 + at.hour as usize - 1)
}

// The sum of the first purchases.
fn sum_of_first(purchases: &[i64], count: usize) -> i64 {
    purchases
        .iter()
        .take(count)
        .fold(0, |sum: i64, purchase| sum.saturating_add(*purchase))
}

// What buyers with a part of all purchases bear of an amount.
fn borne(amount: i64, part: i64, all: i64) -> i64 {
    if all <= 0 {
        return 0;
    }
    amount.saturating_mul(part).div_euclid(all)
}

// A buyer's share of an amount: what all up to it bear, less what those before it bear.
fn share(amount: i64, purchases: [i64; 3], buyer: usize) -> i64 {
    let all = sum_of_first(&purchases, 3);
    let upto = sum_of_first(&purchases, buyer.saturating_add(1));
    let before = sum_of_first(&purchases, buyer);
    borne(amount, upto, all).saturating_sub(borne(amount, before, all))
}

impl HourNote {
    // What a resource's line is paid and fined.
    fn line_sums(&self, resource: usize) -> Sums {
        match self.entries.get(resource) {
            Some(Some(entry)) => Sums {
                due: entry.paid,
                back: entry.fined,
            },
            _ => NOTHING,
        }
    }

    // What the lines of the hour are paid and fined.
    fn sums(&self) -> Sums {
        (0..3)
            .map(|resource| self.line_sums(resource))
            .fold(NOTHING, |sums, line| sums.plus(line))
    }

    // What a buyer is charged and refunded.
    fn charge_sums(&self, buyer: usize) -> Sums {
        let Some(purchases) = self.purchases else {
            return NOTHING;
        };
        let sums = self.sums();
        Sums {
            due: share(sums.due, purchases, buyer),
            back: share(sums.back, purchases, buyer),
        }
    }
}

// The hour of a settling, on a day of a class.
fn resource_hour(
    settling: &Settling<Choice, Choice>,
    class: DayClass,
) -> Result<ResourceHour, Refusal> {
    let resource = RESOURCES
        .get(settling.resource as usize)
        .ok_or(Refusal::NoSuchResource)?;
    Ok(ResourceHour {
        portfolio: Portfolio {
            kind: resource.kind,
            customers: resource.customers,
        },
        slot: Slot {
            month: MONTH,
            class,
            day: FIRST_DAY.saturating_add(settling.at.day).saturating_sub(1),
            hour: settling.at.hour,
        },
        terms: settling.terms,
    })
}

impl Ledger {
    // A month in which every hour is open and empty.
    pub fn new(classes: [u8; 30]) -> Ledger {
        let blank = HourNote {
            state: HourState::Open,
            purchases: None,
            entries: [None; 3],
        };
        Ledger {
            classes,
            hours: [blank; 720],
        }
    }

    // An hour of the month.
    fn note(&self, at: MonthHour) -> Result<&HourNote, Refusal> {
        let place = place_of(at).ok_or(Refusal::NoSuchHour)?;
        self.hours.get(place).ok_or(Refusal::NoSuchHour)
    }

    // An hour of the month, to be changed.
    fn note_mut(&mut self, at: MonthHour) -> Result<&mut HourNote, Refusal> {
        let place = place_of(at).ok_or(Refusal::NoSuchHour)?;
        self.hours.get_mut(place).ok_or(Refusal::NoSuchHour)
    }

    // Where the line of a resource's hour stands, if it may be changed.
    fn entry_mut(&mut self, resource: u32, at: MonthHour) -> Result<&mut Option<Entry>, Refusal> {
        let note = self.note_mut(at)?;
        let state = note.state;
        let entry = note
            .entries
            .get_mut(resource as usize)
            .ok_or(Refusal::NoSuchResource)?;
        if state == HourState::Allotted {
            return Err(Refusal::HourAllotted);
        }
        Ok(entry)
    }

    // What telling should answer; the energies are noted if nothing is refused.
    pub fn tell(&mut self, at: MonthHour, total: u32, others: &[u32]) -> Result<(), Refusal> {
        let note = self.note_mut(at)?;
        if note.state == HourState::Allotted {
            return Err(Refusal::HourAllotted);
        }
        if total == 0 || total > 150_000_000 {
            return Err(Refusal::BadTotal);
        }
        let [first, second] = others else {
            return Err(Refusal::PurchaseCount);
        };
        let rest = i64::from(total) - i64::from(*first) - i64::from(*second);
        if rest < 0 {
            return Err(Refusal::PurchasesExceedTotal);
        }
        note.purchases = Some([rest, i64::from(*first), i64::from(*second)]);
        Ok(())
    }

    // The class of a day of the month.
    fn class_on(&self, day: u32) -> DayClass {
        match self.classes.get(day.saturating_sub(1) as usize) {
            Some(0) => DayClass::Workday,
            _ => DayClass::Holiday,
        }
    }

    // What settling should answer; the line is noted if nothing is refused.
    pub fn settle(
        &mut self,
        meters: &Meters,
        settling: &Settling<Choice, Choice>,
    ) -> Result<(), Refusal> {
        let class = self.class_on(settling.at.day);
        let entry = self.entry_mut(settling.resource, settling.at)?;
        let hour = resource_hour(settling, class)?;
        *entry = Some(meters.line(hour, settling)?);
        Ok(())
    }

    // What the reading of a line should answer.
    pub fn line(&self, resource: u32, at: MonthHour) -> Result<Entry, Refusal> {
        let note = self.note(at)?;
        let entry = note
            .entries
            .get(resource as usize)
            .ok_or(Refusal::NoSuchResource)?;
        entry.ok_or(Refusal::NoLine)
    }

    // What withdrawing should answer; the line goes if nothing is refused.
    pub fn withdraw(&mut self, resource: u32, at: MonthHour) -> Result<(), Refusal> {
        let entry = self.entry_mut(resource, at)?;
        match entry.take() {
            Some(_) => Ok(()),
            None => Err(Refusal::NoLine),
        }
    }

    // What allotting should answer; the hour is allotted if nothing is refused.
    pub fn allot(&mut self, at: MonthHour) -> Result<(), Refusal> {
        let note = self.note_mut(at)?;
        match note.state {
            HourState::Allotted => Err(Refusal::HourAllotted),
            HourState::InCorrection => Err(Refusal::HourInCorrection),
            HourState::Open if note.purchases.is_none() => Err(Refusal::NoEnergies),
            HourState::Open => {
                note.state = HourState::Allotted;
                Ok(())
            }
        }
    }

    // What reopening should answer; the hour is in correction if nothing is refused.
    pub fn reopen(&mut self, at: MonthHour) -> Result<(), Refusal> {
        let note = self.note_mut(at)?;
        if note.state != HourState::Allotted {
            return Err(Refusal::HourNotAllotted);
        }
        note.state = HourState::InCorrection;
        Ok(())
    }

    // What finishing the correction of an hour should answer; the hour is allotted again.
    pub fn finish(&mut self, at: MonthHour) -> Result<(), Refusal> {
        self.note_mut(at)?.state = HourState::Allotted;
        Ok(())
    }

    // What the reading of a charge should answer.
    pub fn charge(&self, buyer: u32, at: MonthHour) -> Result<BuyerLine, Refusal> {
        let note = self.note(at)?;
        if buyer >= 3 {
            return Err(Refusal::NoSuchBuyer);
        }
        if note.state != HourState::Allotted {
            return Err(Refusal::HourNotAllotted);
        }
        let sums = note.charge_sums(buyer as usize);
        Ok(BuyerLine {
            charge: sums.due,
            refund: sums.back,
        })
    }

    // How many hours are in a state.
    pub fn hours_in(&self, state: HourState) -> usize {
        self.hours.iter().filter(|note| note.state == state).count()
    }

    // What is added up over the allotted hours.
    fn sum_over<F: Fn(&HourNote) -> Sums>(&self, sums_of: F) -> Sums
        requires { F.IsAlwaysCallable sums_of }
    {
        let mut sums = NOTHING;
        for note in &self.hours {
            if note.state == HourState::Allotted {
                sums = sums.plus(sums_of(note));
            }
        }
        sums
    }

    // What a resource is paid and fined over the allotted hours.
    pub fn resource_sums(&self, resource: usize) -> Sums {
        self.sum_over(|note| note.line_sums(resource))
    }

    // What a buyer is charged and refunded over the allotted hours.
    pub fn buyer_sums(&self, buyer: usize) -> Sums {
        self.sum_over(|note| note.charge_sums(buyer))
    }

    // The sums over the allotted hours.
    pub fn totals(&self) -> Reconciliation {
        let lines = self.sum_over(|note| note.sums());
        let charges = (0..3)
            .map(|buyer| self.buyer_sums(buyer))
            .fold(NOTHING, |sums, buyer| sums.plus(buyer));
        Reconciliation {
            payments: i128::from(lines.due),
            fines: i128::from(lines.back),
            charges: i128::from(charges.due),
            refunds: i128::from(charges.back),
        }
    }
}
