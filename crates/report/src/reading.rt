// The text of a report, read line by line.
ghost use Rattle.std.specs.Prelude.{◌≡◌, IfOk};
ghost use Rattle.report.specs.Asked.{nothing_asked, metered_by, Leaves, after_word, after_line, Reads, read_from};

use crate::fault::{BadLine, Fault};
use crate::fields::{numbers_of, word_of};
use crate::lines::{
    CUSTOMERS, DAYS, days_marked, only_number, place_of, purchases_of, settling_of, start_marked,
};
use crate::meter::Meter;
use crate::request::Request;
use crate::word::Word;
use std::alloc::{AllocError, Global};

// Places for the loads or the readings of 16 customers.
const PLACES: usize = 36880;

// Where nothing was read; as a load and as a reading it counts as missing.
const NOTHING: u32 = 4_294_967_295;

// Stays: the records read the class of a day from a byte, and the left-out layer its marks.
// The byte of a day that is neither workday nor holiday.
const NEITHER: u8 = 2;

// The byte of a workday.
const WORKDAY: u8 = 0;

// The byte of a holiday.
const HOLIDAY: u8 = 1;

// The byte of a day that is left out.
const LEFT_OUT: u8 = 1;

impl Request {
    // A request with nothing in it yet: one customer, no day of a class, no load.
    pub fn new(heap: Global) -> Result<Request, AllocError>
        ensures value { IfOk result (λ q. q ≡ nothing_asked) }
    {
        Ok(Request {
            day: None,
            customers: 1,
            classes: [NEITHER; 96],
            left_out: [0; 96],
            starts: [0; 96],
            meter: None,
            numbers: vec![in heap; NOTHING; PLACES]?,
            settling: None,
            purchases: None,
        })
    }

    // Notes what a meter read on a day from an hour on.
    fn read_meter(&mut self, meter: Meter, numbers: &[u32]) -> Result<(), Fault>
        ensures value { Leaves result (metered_by meter numbers.now self.old) self.old self.new }
    {
        if self.meter.unwrap_or(meter) != meter {
            return Err(Fault::LoadsAndReadings);
        }
        let place = place_of(meter, numbers)?;
        let values = &numbers[3..];
        self.numbers[place..place + values.len()].copy_from_slice(values);
        self.meter = Some(meter);
        Ok(())
    }

    // Takes a word and its numbers.
    fn take(&mut self, word: Word, numbers: &[u32]) -> Result<(), Fault>
        ensures value { Leaves result (after_word word numbers.now self.old) self.old self.new }
    {
        match word {
            Word::Day => self.day = Some(only_number(numbers, 0, DAYS - 1)?),
            Word::Customers => self.customers = only_number(numbers, 1, CUSTOMERS)?,
            Word::Workday => self.classes = days_marked(self.classes, numbers, WORKDAY)?,
            Word::Holiday => self.classes = days_marked(self.classes, numbers, HOLIDAY)?,
            Word::LeftOut => self.left_out = days_marked(self.left_out, numbers, LEFT_OUT)?,
            Word::Start => self.starts = start_marked(self.starts, numbers)?,
            Word::Load => return self.read_meter(Meter::Loads, numbers),
            Word::Reading => return self.read_meter(Meter::Readings, numbers),
            Word::Settle => self.settling = Some(settling_of(numbers)?),
            Word::Energy => self.purchases = Some(purchases_of(numbers)?),
        }
        Ok(())
    }

    // Takes a line; an empty one, or one that begins with #, is passed over.
    fn take_line(&mut self, line: &str) -> Result<(), Fault>
        ensures value { Leaves result (after_line line.now self.old) self.old self.new }
    {
        if line.is_empty() || line.starts_with('#') {
            return Ok(());
        }
        let numbers = numbers_of(line)?;
        let word = word_of(line).parse::<Word>()?;
        self.take(word, numbers.as_slice())
    }

    // Takes the lines of a text; the first bad one ends it.
    fn read_lines(&mut self, text: &str) -> Result<(), BadLine>
        ensures value { Reads result (read_from self.old text.now) self.new }
    {
        let mut lines = 0;
        for (k, line) in text.split_terminator('\n').enumerate() {
            lines = k + 1;
            self.take_line(line)
                .map_err(|fault| BadLine { line: lines, fault })?;
        }
        if self.day.is_none() {
            return Err(BadLine {
                line: lines,
                fault: Fault::NoDay,
            });
        }
        Ok(())
    }

    // The request with what a text asks for, or the text's first bad line.
    pub fn read(mut self, text: &str) -> Result<Request, BadLine>
        ensures value { result ≡ read_from self text.now }
    {
        self.read_lines(text)?;
        Ok(self)
    }
}
