// A line's parts: a word, then numbers, with one space before each.
ghost use Rattle.std.specs.Prelude.{◌≡◌, Ok, Err, MatchResult};
ghost use Rattle.report.specs.Numbers.{with_digit, number_in, numbers_in};
ghost use Rattle.report.specs.Pieces.{word_of, fields_of};

use crate::fault::Fault;
use arrayvec::ArrayVec;

// A number with one more digit behind it.
// Stays: `parse` takes a leading + too, and of a number past 32 bits does not say whether a byte that is no digit came first.
fn with_digit(number: u32, byte: u8) -> Result<u32, Fault>
    ensures value { result ≡ with_digit (Ok number) byte }
{
    if !byte.is_ascii_digit() {
        return Err(Fault::NotANumber);
    }
    let next = u64::from(number) * 10 + u64::from(byte - b'0');
    u32::try_from(next).map_err(|_| Fault::OutOfRange)
}

// A number of decimal digits that fits 32 bits.
fn number_of(field: &str) -> Result<u32, Fault>
    ensures value { result ≡ number_in field.now }
{
    if field.is_empty() {
        return Err(Fault::NotANumber);
    }
    field
        .bytes()
        .try_fold(0, |number, byte| with_digit(number, byte))
}

// The word that a line begins with.
pub(crate) fn word_of(line: &str) -> &str
    ensures value { result.now ≡ word_of line.now }
{
    let (word, _) = line.split_once(' ').unwrap_or((line, ""));
    word
}

// The numbers behind a line's word, at most 100.
pub(crate) fn numbers_of(line: &str) -> Result<ArrayVec<u32, 100>, Fault>
    ensures value { MatchResult result (λ v. numbers_in (fields_of line.now) ≡ Ok v.items) (λ e. numbers_in (fields_of line.now) ≡ Err e) }
{
    let mut numbers = ArrayVec::new();
    for field in line.split(' ').skip(1) {
        if numbers.is_full() {
            return Err(Fault::TooManyNumbers);
        }
        numbers.push(number_of(field)?);
    }
    Ok(numbers)
}
