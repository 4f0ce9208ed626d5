// The entries of a sheet.
ghost use Rattle.std.specs.Prelude.{◌≡◌, ◌≤◌, length};
ghost use Rattle.sheet.specs.Text.{key_text};

use itoa::Buffer;

#[derive(Clone, Copy, PartialEq, Eq, Debug, Default)]
pub enum Key {
    #[default]
    Book,
    Month,
    Allotted,
    Correcting,
    Resource,
    Aggregator,
    Paid,
    Fined,
    Payer,
    Charged,
    Refunded,
}

// One line: a key and its number.
#[derive(Clone, Copy, Default)]
pub struct Entry {
    pub key: Key,
    pub number: i128,
}

impl Key {
    // The key as it is written.
    // Stays: a sink takes bytes, and Display writes text through a formatter.
    pub fn text(self) -> &'static [u8]
        ensures value { result.now ≡ key_text self }
        ensures bounded { length result.now ≤ 10 }
    {
        match self {
            Key::Book => b"book",
            Key::Month => b"month",
            Key::Allotted => b"allotted",
            Key::Correcting => b"correcting",
            Key::Resource => b"resource",
            Key::Aggregator => b"aggregator",
            Key::Paid => b"paid",
            Key::Fined => b"fined",
            Key::Payer => b"payer",
            Key::Charged => b"charged",
            Key::Refunded => b"refunded",
        }
    }
}

impl Entry {
    ghost use Rattle.sheet.specs.Decimal.{signed};
    ghost use Rattle.sheet.specs.Evening.{entry};

    pub(crate) fn new(key: Key, number: i128) -> Entry
        ensures value { result ≡ entry key number }
    {
        Entry { key, number }
    }

    // The number in decimals.
    pub(crate) fn decimals<'a>(&self, buffer: &'a mut Buffer) -> &'a str
        ensures value { result.now ≡ signed self.now.number }
        ensures bounded { length result.now ≤ 40 }
    {
        buffer.format(self.number)
    }
}
