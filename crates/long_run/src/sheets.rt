// The evening sheet as the plain reckoning writes it.
use crate::ledger::{HourState, Ledger};
use crate::resources::{MONTH, RESOURCES};
use arrayvec::ArrayString;
use std::fmt;
use std::fmt::Write;

// A text of at most 600 bytes.
pub type Text = ArrayString<600>;

// Writes the sheet of book 7 behind a text.
fn write_text(ledger: &Ledger, text: &mut Text) -> fmt::Result {
    writeln!(text, "book=7")?;
    writeln!(text, "month={MONTH}")?;
    writeln!(text, "allotted={}", ledger.hours_in(HourState::Allotted))?;
    writeln!(
        text,
        "correcting={}",
        ledger.hours_in(HourState::InCorrection)
    )?;
    for (r, resource) in RESOURCES.iter().enumerate() {
        let sums = ledger.resource_sums(r);
        writeln!(text, "resource={r}")?;
        writeln!(text, "aggregator={}", resource.aggregator)?;
        writeln!(text, "paid={}", sums.due)?;
        writeln!(text, "fined={}", sums.back)?;
    }
    for buyer in 0..3 {
        let sums = ledger.buyer_sums(buyer);
        writeln!(text, "payer={buyer}")?;
        writeln!(text, "charged={}", sums.due)?;
        writeln!(text, "refunded={}", sums.back)?;
    }
    Ok(())
}

// The sheet of book 7; one that had no room would be cut short, and so differ.
pub fn text_of(ledger: &Ledger) -> Text {
    let mut text = Text::new();
    let _whole = write_text(ledger, &mut text);
    text
}

// Whether a buffer holds a text, and then what it held before.
pub fn holds(buffer: &[u8], text: &str) -> bool {
    match buffer.strip_prefix(text.as_bytes()) {
        Some(rest) => rest.iter().all(|byte| *byte == 255),
        None => false,
    }
}
