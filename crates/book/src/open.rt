// Opening a book.
ghost use Rattle.std.specs.Prelude.{◌≡◌, ◌+◌, ◌*◌, ◌<◌, ◌≤◌, length, replicate};
ghost use Rattle.book.specs.Opening.{blank_register, month_has, plain_classes, sound_resource, sound_resources, opening_refusal, opened, after_opening, register_of};
ghost use Rattle.book.specs.Seen.{seen, told_by, granted_or};

use crate::book::Book;
use crate::energies::Energies;
use crate::hour::Hour;
use crate::register::{Register, Registration, entered_classes};
use crate::rows::clear;
use refusal::Refusal;
use table::lines::{BuyerLine, ResourceLine};

// What a book is opened with; a day's class is 0 for a workday and 1 for a holiday, the first day is its number in the sources.
#[derive(Clone, Copy)]
pub struct Opening<'a> {
    pub number: u32,
    pub month: u32,
    pub classes: &'a [u8],
    pub first_day: u32,
    pub buyers: u32,
    pub resources: &'a [Registration],
}

const MOST_RESOURCES: usize = 16;

const MOST_BUYERS: u32 = 8;

const LAST_FIRST_DAY: u32 = 64;

// Whether a month can have so many days.
fn month_has(month: u32, days: usize) -> bool
    ensures value { result ≡ month_has month days }
{
    match month {
        2 => days == 28 || days == 29,
        4 | 6 | 9 | 11 => days == 30,
        _ => days == 31,
    }
}

// Whether each day is a workday or a holiday.
fn plain_classes(classes: &[u8]) -> bool
    ensures value { result ≡ plain_classes classes.now }
{
    classes.iter().all(|class| *class < 2)
}

impl Registration {
    // Whether kind, customers and aggregator are in range.
    fn is_sound(&self) -> bool
        ensures value { result ≡ sound_resource self.now }
    {
        1 <= self.kind
            && self.kind <= 4
            && 1 <= self.customers
            && self.customers <= 16
            && 1 <= self.aggregator
            && self.aggregator <= 99
    }
}

// Whether each resource is in range.
fn sound_resources(resources: &[Registration]) -> bool
    ensures value { result ≡ sound_resources resources.now }
{
    resources.iter().all(|resource| resource.is_sound())
}

// Stays: the two counts of a sound opening stand in three private steps of one call, whose tests stand in `may_open`.
impl<'a> Opening<'a> {
    // What the book keeps of the opening.
    fn register(self) -> Register
        requires classes_few { length self.classes.now ≤ 31 }
        requires resources_few { length self.resources.now ≤ 16 }
        ensures value { result ≡ register_of (told_by self.entry) }
    {
        let mut register = Register {
            number: self.number,
            month: self.month,
            days: self.classes.len() as u32,
            classes: entered_classes(self.classes),
            first_day: self.first_day,
            enrolled: self.resources.len() as u32,
            buyers: self.buyers,
            ..Register::blank()
        };
        register.enter_all(self.resources);
        register
    }
}

// Hours that are open and empty.
fn blank_hours() -> [Hour<Energies>; 744]
    ensures value { result ≡ replicate 744 Hour.Blank }
{
    [Hour::Blank; 744]
}

impl Book {
    // A book not yet opened.
    pub fn new() -> Book
        ensures register { result.register ≡ blank_register }
        ensures hours { result.hours ≡ replicate 744 Hour.Blank }
    {
        Book {
            register: Register::blank(),
            hours: blank_hours(),
        }
    }

    // Why an opening is refused, if it is.
    fn may_open(
        &self,
        opening: Opening,
        lines: &[ResourceLine],
        charges: &[BuyerLine],
    ) -> Result<(), Refusal>
        ensures value { result ≡ granted_or (opening_refusal (told_by opening.entry) (seen self.now lines.now charges.now)) tt }
    {
        if self.register.month != 0 {
            return Err(Refusal::AlreadyOpened);
        }
        if opening.month < 1 || opening.month > 12 {
            return Err(Refusal::BadMonth);
        }
        if !month_has(opening.month, opening.classes.len()) || !plain_classes(opening.classes) {
            return Err(Refusal::BadClasses);
        }
        if opening.first_day > LAST_FIRST_DAY {
            return Err(Refusal::BadFirstDay);
        }
        if opening.resources.len() < 1 || opening.resources.len() > MOST_RESOURCES {
            return Err(Refusal::ResourceCount);
        }
        if !sound_resources(opening.resources) {
            return Err(Refusal::BadResource);
        }
        if opening.buyers < 1 || opening.buyers > MOST_BUYERS {
            return Err(Refusal::BuyerCount);
        }
        let hours = opening.classes.len() * 24;
        if lines.len() < hours * opening.resources.len()
            || charges.len() < hours * opening.buyers as usize
        {
            return Err(Refusal::ShortLists);
        }
        Ok(())
    }

    // Makes this a book just opened.
    fn begin(&mut self, opening: Opening, lines: &mut [ResourceLine], charges: &mut [BuyerLine])
        requires classes_few { length opening.classes.now ≤ 31 }
        requires resources_few { length opening.resources.now ≤ 16 }
        requires buyers_few { opening.buyers ≤ 8 }
        requires first_day_low { opening.first_day ≤ 64 }
        ensures value { seen self.new lines.new charges.new ≡ opened (told_by opening.entry) (seen self.old lines.old charges.old) }
    {
        let register = opening.register();
        let hours = register.days * 24;
        clear(lines, register.enrolled, hours);
        clear(charges, register.buyers, hours);
        *self = Book {
            register,
            hours: blank_hours(),
        };
    }

    // Opens this book over two lists, which are emptied within its measure.
    pub fn open(
        &mut self,
        opening: Opening,
        lines: &mut [ResourceLine],
        charges: &mut [BuyerLine],
    ) -> Result<(), Refusal>
        ensures answer { result ≡ granted_or (opening_refusal (told_by opening.entry) (seen self.old lines.old charges.old)) tt }
        ensures book { seen self.new lines.new charges.new ≡ after_opening (told_by opening.entry) (seen self.old lines.old charges.old) }
    {
        self.may_open(opening, lines, charges)?;
        self.begin(opening, lines, charges);
        Ok(())
    }
}
