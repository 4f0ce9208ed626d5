// The words by their texts.
ghost use Rattle.std.specs.Prelude.{◌≡◌};
ghost use Rattle.report.specs.Words.{word_named};

use crate::fault::Fault;
use crate::word::Word;
use std::str::FromStr;

impl FromStr for Word {
    type Err = Fault;

    ghost from_str_gives = { λ text r. r ≡ word_named text };

    fn from_str(text: &str) -> Result<Word, Fault> {
        let word = match text {
            "day" => Word::Day,
            "customers" => Word::Customers,
            "workday" => Word::Workday,
            "holiday" => Word::Holiday,
            "leftout" => Word::LeftOut,
            "start" => Word::Start,
            "load" => Word::Load,
            "reading" => Word::Reading,
            "settle" => Word::Settle,
            "energy" => Word::Energy,
            _ => return Err(Fault::UnknownWord),
        };
        Ok(word)
    }
}
