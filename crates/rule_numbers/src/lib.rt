// The numbers under which the rules list refusals and causes, written down apart from the library's own, so that a program can hold what the library tells against them.
#![tactic(auto)]

ghost use Rattle.std.specs.Prelude.{◌≡◌};
ghost use Rattle.refusal.specs.Numbers.{cause_number, refusal_number};

use refusal::{Cause, Refusal};

// The number under which the rules list a cause.
pub fn cause_listed(cause: Cause) -> u32
    ensures value { result ≡ cause_number cause }
{
    match cause {
        Cause::TooFewDays => 1,
        Cause::MissingLoad => 2,
        Cause::OutOfRange => 3,
    }
}

// The number under which the rules list a refusal.
pub fn refusal_listed(refusal: Refusal) -> u32
    ensures value { result ≡ refusal_number refusal }
{
    match refusal {
        Refusal::BadMonth => 1,
        Refusal::BadClasses => 2,
        Refusal::BadFirstDay => 3,
        Refusal::ResourceCount => 4,
        Refusal::BadResource => 5,
        Refusal::BuyerCount => 6,
        Refusal::ShortLists => 7,
        Refusal::UnknownMethod => 8,
        Refusal::AlreadyOpened => 9,
        Refusal::NoSuchHour => 10,
        Refusal::HourAllotted => 11,
        Refusal::BadTotal => 12,
        Refusal::PurchaseCount => 13,
        Refusal::PurchasesExceedTotal => 14,
        Refusal::HourInCorrection => 15,
        Refusal::NoEnergies => 16,
        Refusal::HourNotAllotted => 17,
        Refusal::WrongSlip => 18,
        Refusal::NoSuchResource => 20,
        Refusal::NeitherPlanNorOrder => 21,
        Refusal::AboveLimit => 22,
        Refusal::MarkWithoutOrder => 23,
        Refusal::OutsideOrderHours => 24,
        Refusal::Scheduled(_) => 25,
        Refusal::Mandatory(_) => 26,
        Refusal::NoLine => 28,
        Refusal::NoSuchBuyer => 29,
        Refusal::ShortBuffer => 30,
    }
}
