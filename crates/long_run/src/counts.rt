// Counts of calls, of refusals by their number, and of differences.
use refusal::Refusal;
use rule_numbers::{cause_listed, refusal_listed};
use std::fmt;

// The calls as they are counted.
#[derive(Clone, Copy, PartialEq, Eq, Debug)]
pub enum Call {
    Open,
    Tell,
    Settle,
    Withdraw,
    Allot,
    Reopen,
    Finish,
    ReadLine,
    ReadCharge,
    Reconcile,
    Method,
    Sheet,
}

// Every call, in the order of their counts.
pub const CALLS: [Call; 12] = [
    Call::Open,
    Call::Tell,
    Call::Settle,
    Call::Withdraw,
    Call::Allot,
    Call::Reopen,
    Call::Finish,
    Call::ReadLine,
    Call::ReadCharge,
    Call::Reconcile,
    Call::Method,
    Call::Sheet,
];

impl fmt::Display for Call {
    fn fmt<W: fmt::Write>(&self, f: &mut fmt::Formatter<W>) -> fmt::Result {
        let name = match self {
            Call::Open => "open",
            Call::Tell => "tell",
            Call::Settle => "settle",
            Call::Withdraw => "withdraw",
            Call::Allot => "allot",
            Call::Reopen => "reopen",
            Call::Finish => "finish",
            Call::ReadLine => "read line",
            Call::ReadCharge => "read charge",
            Call::Reconcile => "reconcile",
            Call::Method => "method",
            Call::Sheet => "sheet",
        };
        f.write_str(name)
    }
}

// How often each call was made, granted and refused by each number, how often it was compared, and how often an answer differed.
#[derive(Drop)]
pub struct Counts {
    pub calls: [u32; 12],
    pub granted: u32,
    pub refusals: [u32; 31],
    pub compared: [u32; 12],
    pub differences: u32,
}

// One more at a place.
fn add_at(counts: &mut [u32], place: usize) {
    if let Some(count) = counts.get_mut(place) {
        *count = count.saturating_add(1);
    }
}

// Whether the library tells a refusal, and the cause in it, by their numbers in the rules.
fn is_told(refusal: Refusal) -> bool {
    let numbered = refusal.number() == refusal_listed(refusal);
    match refusal {
        Refusal::Scheduled(lacking) | Refusal::Mandatory(lacking) => {
            numbered && lacking.cause.number() == cause_listed(lacking.cause)
        }
        _ => numbered,
    }
}

// Whether a call answered what it should, a refusal told by its numbers in the rules.
pub fn agrees<T: PartialEq + Copy>(expected: Result<T, Refusal>, got: Result<T, Refusal>) -> bool {
    expected == got && got.err().is_none_or(is_told)
}

impl Counts {
    // Nothing counted yet.
    pub fn new() -> Counts {
        Counts {
            calls: [0; 12],
            granted: 0,
            refusals: [0; 31],
            compared: [0; 12],
            differences: 0,
        }
    }

    // Counts a call with what it should answer and what it answered.
    pub fn note<T: PartialEq + Copy>(
        &mut self,
        call: Call,
        expected: Result<T, Refusal>,
        got: Result<T, Refusal>,
    ) {
        add_at(&mut self.calls, call as usize);
        match got {
            Ok(_) => self.granted = self.granted.saturating_add(1),
            Err(refusal) => add_at(&mut self.refusals, refusal.number() as usize),
        }
        self.agree(agrees(expected, got));
    }

    // Counts a comparison of what a call answers.
    pub fn compared(&mut self, call: Call) {
        add_at(&mut self.compared, call as usize);
    }

    // Counts a difference unless two values agree.
    pub fn agree(&mut self, same: bool) {
        if !same {
            self.differences = self.differences.saturating_add(1);
        }
    }
}
