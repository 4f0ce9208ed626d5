// Why a call is refused, and why a source has no figure.
#![tactic(auto)]

ghost use Rattle.std.specs.Prelude.{◌≡◌, Some};
ghost use Rattle.refusal.specs.Numbers.{cause_number, refusal_number};
ghost use Rattle.refusal.specs.Texts.{cause_text, no_figure_text, refusal_phrase, refusal_text};

use std::error::Error;
use std::fmt;

// Why a source has no figure for a customer.
#[derive(Clone, Copy, PartialEq, Eq, Debug)]
pub enum Cause {
    TooFewDays,
    MissingLoad,
    OutOfRange,
}

// A customer for whom a source has no figure.
#[derive(Clone, Copy, PartialEq, Eq, Debug)]
pub struct NoFigure {
    pub customer: u32,
    pub cause: Cause,
}

// Why a call is refused; a refused call changes nothing.
#[derive(Clone, Copy, PartialEq, Eq, Debug)]
pub enum Refusal {
    BadMonth,
    BadClasses,
    BadFirstDay,
    ResourceCount,
    BadResource,
    BuyerCount,
    ShortLists,
    UnknownMethod,
    AlreadyOpened,
    NoSuchHour,
    HourAllotted,
    BadTotal,
    PurchaseCount,
    PurchasesExceedTotal,
    HourInCorrection,
    NoEnergies,
    HourNotAllotted,
    WrongSlip,
    NoSuchResource,
    NeitherPlanNorOrder,
    AboveLimit,
    MarkWithoutOrder,
    OutsideOrderHours,
    Scheduled(NoFigure),
    Mandatory(NoFigure),
    NoLine,
    NoSuchBuyer,
    ShortBuffer,
}

impl Cause {
    // The number by which the cause is told.
    // Stays: a cast of the variant would hide the number that each is told by.
    pub fn number(self) -> u32
        ensures value { result ≡ cause_number self }
    {
        match self {
            Cause::TooFewDays => 1,
            Cause::MissingLoad => 2,
            Cause::OutOfRange => 3,
        }
    }
}

impl Refusal {
    // The number by which the refusal is told.
    // Stays: the numbers have gaps and two variants hold a value, so no cast gives them.
    pub fn number(self) -> u32
        ensures value { result ≡ refusal_number self }
    {
        match self {
            Refusal::BadMonth => 1,
            Refusal::BadClasses => 2,
            Refusal::BadFirstDay => 3,
            Refusal::ResourceCount => 4,
            Refusal::BadResource => 5,
            Refusal::BuyerCount => 6,
            Refusal::ShortLists => 7,
            Refusal::UnknownMethod => 8,
            Refusal::AlreadyOpened => 9,
            Refusal::NoSuchHour => 10,
            Refusal::HourAllotted => 11,
            Refusal::BadTotal => 12,
            Refusal::PurchaseCount => 13,
            Refusal::PurchasesExceedTotal => 14,
            Refusal::HourInCorrection => 15,
            Refusal::NoEnergies => 16,
            Refusal::HourNotAllotted => 17,
            Refusal::WrongSlip => 18,
            Refusal::NoSuchResource => 20,
            Refusal::NeitherPlanNorOrder => 21,
            Refusal::AboveLimit => 22,
            Refusal::MarkWithoutOrder => 23,
            Refusal::OutsideOrderHours => 24,
            Refusal::Scheduled(_) => 25,
            Refusal::Mandatory(_) => 26,
            Refusal::NoLine => 28,
            Refusal::NoSuchBuyer => 29,
            Refusal::ShortBuffer => 30,
        }
    }

    // The refusal in words.
    fn phrase(self) -> &'static str
        ensures value { result.now ≡ refusal_phrase self }
    {
        match self {
            Refusal::BadMonth => "bad month",
            Refusal::BadClasses => "bad day classes",
            Refusal::BadFirstDay => "bad first day",
            Refusal::ResourceCount => "wrong number of resources",
            Refusal::BadResource => "bad resource",
            Refusal::BuyerCount => "wrong number of buyers",
            Refusal::ShortLists => "lists too short",
            Refusal::UnknownMethod => "unknown method",
            Refusal::AlreadyOpened => "already opened",
            Refusal::NoSuchHour => "no such hour",
            Refusal::HourAllotted => "hour already allotted",
            Refusal::BadTotal => "bad total",
            Refusal::PurchaseCount => "wrong number of purchases",
            Refusal::PurchasesExceedTotal => "purchases exceed the total",
            Refusal::HourInCorrection => "hour in correction",
            Refusal::NoEnergies => "no energies",
            Refusal::HourNotAllotted => "hour not allotted",
            Refusal::WrongSlip => "wrong slip",
            Refusal::NoSuchResource => "no such resource",
            Refusal::NeitherPlanNorOrder => "neither plan nor order",
            Refusal::AboveLimit => "above the limit",
            Refusal::MarkWithoutOrder => "mark without an order",
            Refusal::OutsideOrderHours => "outside the order hours",
            Refusal::Scheduled(_) => "scheduled source",
            Refusal::Mandatory(_) => "mandatory source",
            Refusal::NoLine => "no line",
            Refusal::NoSuchBuyer => "no such buyer",
            Refusal::ShortBuffer => "buffer too short",
        }
    }
}

impl fmt::Display for Cause {
    ghost output = { λ cause. Some (cause_text cause) };

    fn fmt<W: fmt::Write>(&self, f: &mut fmt::Formatter<W>) -> fmt::Result {
        f.write_str(match self {
            Cause::TooFewDays => "too few reference days",
            Cause::MissingLoad => "missing load",
            Cause::OutOfRange => "out of range",
        })
    }
}

impl Error for Cause {}

impl fmt::Display for NoFigure {
    ghost output = { λ lacking. Some (no_figure_text lacking) };

    fn fmt<W: fmt::Write>(&self, f: &mut fmt::Formatter<W>) -> fmt::Result {
        write!(f, "customer {}: {}", self.customer, self.cause)
    }
}

impl Error for NoFigure {}

impl fmt::Display for Refusal {
    ghost output = { λ refusal. Some (refusal_text refusal) };

    fn fmt<W: fmt::Write>(&self, f: &mut fmt::Formatter<W>) -> fmt::Result {
        match self {
            Refusal::Scheduled(lacking) | Refusal::Mandatory(lacking) => {
                write!(f, "refusal {}: {}: {lacking}", self.number(), self.phrase())
            }
            _ => write!(f, "refusal {}: {}", self.number(), self.phrase()),
        }
    }
}

impl Error for Refusal {}
