// The readings of a desk, each with what the ledger says of it.
use crate::calls::Desk;
use crate::counts::Call;
use crate::ledger::Ledger;
use crate::plain::Entry;
use book::book::Book;
use book::month_hour::MonthHour;
use refusal::Refusal;
use table::lines::BuyerLine;

// What a desk and its ledger both say of a resource or a buyer in an hour.
pub trait Reading: PartialEq + Copy {
    const CALL: Call;

    // What the ledger says.
    fn expected(ledger: &Ledger, number: u32, at: MonthHour) -> Result<Self, Refusal>;

    // What the desk says.
    fn read(desk: &Desk, number: u32, at: MonthHour) -> Result<Self, Refusal>;

    // What the desk says over a list that is a place too short.
    fn read_short(desk: &Desk, number: u32, at: MonthHour) -> Result<Self, Refusal>;
}

impl Reading for Entry {
    const CALL: Call = Call::ReadLine;

    fn expected(ledger: &Ledger, number: u32, at: MonthHour) -> Result<Entry, Refusal> {
        ledger.line(number, at)
    }

    fn read(desk: &Desk, number: u32, at: MonthHour) -> Result<Entry, Refusal> {
        let line = desk.read_line(number, at)?;
        Ok(Entry::from(line))
    }

    fn read_short(desk: &Desk, number: u32, at: MonthHour) -> Result<Entry, Refusal> {
        let line = desk
            .book
            .read_line(&desk.lines[..2159], &desk.charges, number, at)?;
        Ok(Entry::from(line))
    }
}

impl Reading for BuyerLine {
    const CALL: Call = Call::ReadCharge;

    fn expected(ledger: &Ledger, number: u32, at: MonthHour) -> Result<BuyerLine, Refusal> {
        ledger.charge(number, at)
    }

    fn read(desk: &Desk, number: u32, at: MonthHour) -> Result<BuyerLine, Refusal> {
        desk.read_charge(number, at)
    }

    fn read_short(desk: &Desk, number: u32, at: MonthHour) -> Result<BuyerLine, Refusal> {
        desk.book
            .read_charge(&desk.lines, &desk.charges[..2159], number, at)
    }
}
