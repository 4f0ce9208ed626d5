// What a call comes to, and the noting of a case.
use load::loads::DayClass;
use refusal::{Cause, NoFigure, Refusal};
use rule_numbers::{cause_listed, refusal_listed};
use std::fmt;

// What comes of a call or a question.
#[derive(Clone, Copy, PartialEq, Eq)]
pub enum Outcome {
    Number(i128),
    Said(bool),
    Class(DayClass),
    Missing,
    Granted,
    Refused(Refusal),
    Because(Cause),
}

// A yes, a class, a refusal and a cause are printed by their numbers.
impl fmt::Display for Outcome {
    fn fmt<W: fmt::Write>(&self, f: &mut fmt::Formatter<W>) -> fmt::Result {
        match *self {
            Outcome::Number(n) => write!(f, "{n}"),
            Outcome::Said(false) | Outcome::Class(DayClass::Workday) => write!(f, "0"),
            Outcome::Said(true) | Outcome::Class(DayClass::Holiday) => write!(f, "1"),
            Outcome::Class(DayClass::Neither) => write!(f, "2"),
            Outcome::Missing => write!(f, "missing"),
            Outcome::Granted => write!(f, "granted"),
            Outcome::Because(cause) => write!(f, "cause {}", cause.number()),
            Outcome::Refused(refusal) => {
                write!(f, "refusal {}", refusal.number())?;
                if let Refusal::Scheduled(lacking) | Refusal::Mandatory(lacking) = refusal {
                    let NoFigure { customer, cause } = lacking;
                    write!(f, ", customer {customer}, cause {}", cause.number())?;
                }
                Ok(())
            }
        }
    }
}

// What a call should come to: a refusal and a cause are printed by their numbers in the rules, not by the library's.
#[derive(Clone, Copy)]
struct Expected(Outcome);

impl fmt::Display for Expected {
    fn fmt<W: fmt::Write>(&self, f: &mut fmt::Formatter<W>) -> fmt::Result {
        match self.0 {
            Outcome::Because(cause) => write!(f, "cause {}", cause_listed(cause)),
            Outcome::Refused(refusal) => {
                write!(f, "refusal {}", refusal_listed(refusal))?;
                if let Refusal::Scheduled(lacking) | Refusal::Mandatory(lacking) = refusal {
                    let NoFigure { customer, cause } = lacking;
                    write!(f, ", customer {customer}, cause {}", cause_listed(cause))?;
                }
                Ok(())
            }
            outcome => write!(f, "{outcome}"),
        }
    }
}

impl Outcome {
    // Whether the library tells a refusal and a cause by their numbers in the rules.
    // Stays: what comes is held against the rules' own numbers, which no conversion of the library's may stand in for.
    fn is_told(self) -> bool {
        match self {
            Outcome::Because(cause) => cause.number() == cause_listed(cause),
            Outcome::Refused(refusal) => {
                let numbered = refusal.number() == refusal_listed(refusal);
                match refusal {
                    Refusal::Scheduled(lacking) | Refusal::Mandatory(lacking) => {
                        numbered && lacking.cause.number() == cause_listed(lacking.cause)
                    }
                    _ => numbered,
                }
            }
            _ => true,
        }
    }
}

impl From<bool> for Outcome {
    fn from(yes: bool) -> Outcome {
        Outcome::Said(yes)
    }
}

impl From<DayClass> for Outcome {
    fn from(class: DayClass) -> Outcome {
        Outcome::Class(class)
    }
}

// A load.
impl<T: Into<i128>> From<Option<T>> for Outcome {
    fn from(load: Option<T>) -> Outcome {
        match load {
            Some(load) => Outcome::Number(load.into()),
            None => Outcome::Missing,
        }
    }
}

// A profile or a baseline.
impl<T: Into<i128>> From<Result<T, Cause>> for Outcome {
    fn from(figure: Result<T, Cause>) -> Outcome {
        match figure {
            Ok(figure) => Outcome::Number(figure.into()),
            Err(cause) => Outcome::Because(cause),
        }
    }
}

// A call's answer.
impl<T: Into<Outcome>> From<Result<T, Refusal>> for Outcome {
    fn from(answer: Result<T, Refusal>) -> Outcome {
        match answer {
            Ok(told) => told.into(),
            Err(refusal) => Outcome::Refused(refusal),
        }
    }
}

impl From<()> for Outcome {
    fn from(_nothing: ()) -> Outcome {
        Outcome::Granted
    }
}

// An amount of energy or of money.
impl From<i64> for Outcome {
    fn from(amount: i64) -> Outcome {
        Outcome::Number(amount.into())
    }
}

// The length of a text.
impl From<usize> for Outcome {
    fn from(length: usize) -> Outcome {
        Outcome::Number(length as i128)
    }
}

// How many cases there were, and in how many the two sides differed.
#[derive(Drop)]
pub struct Tally<'a> {
    pub rt: &'a HostRuntime,
    pub cases: u32,
    pub differences: u32,
}

impl Tally<'_> {
    // Prints a case and counts it.
    pub fn note<T: Into<Outcome>>(
        &mut self,
        what: &str,
        expected: T,
        got: T,
    ) -> anyhow::Result<()> {
        let expected: Outcome = expected.into();
        let got: Outcome = got.into();
        println!(self.rt; "{what}: expected {}, got {got}", Expected(expected))?;
        self.cases = self.cases.saturating_add(1);
        if expected != got || !got.is_told() {
            self.differences = self.differences.saturating_add(1);
        }
        Ok(())
    }
}
