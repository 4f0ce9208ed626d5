// What is wrong with a line of the text.
use thiserror::Error;

#[derive(Clone, Copy, PartialEq, Eq, Debug, Error)]
pub enum Fault {
    #[error("unknown word")]
    UnknownWord,
    #[error("too few numbers")]
    TooFewNumbers,
    #[error("too many numbers")]
    TooManyNumbers,
    #[error("not a number")]
    NotANumber,
    #[error("out of range")]
    OutOfRange,
    #[error("loads and readings in one text")]
    LoadsAndReadings,
    #[error("no day named")]
    NoDay,
}

// The first bad line, counted from 1, and what is wrong with it.
#[derive(Clone, Copy, PartialEq, Eq, Debug, Error)]
#[error("line {line}: {fault}")]
pub struct BadLine {
    pub line: usize,
    pub fault: Fault,
}
