// What a desk should hold, and how often it was compared.
use crate::calls::Desk;
use crate::counts::{Call, Counts, agrees};
use crate::ledger::Ledger;
use crate::plain::{Entry, WAYS};
use crate::random::Random;
use crate::readings::Reading;
use crate::sheets::{holds, text_of};
use baseline::method::Method;
use book::month_hour::MonthHour;
use refusal::Refusal;
use sheet::sheet::write_sheet;
use table::lines::BuyerLine;

// What a desk should hold, and the counts.
#[derive(Drop)]
pub struct Audit {
    pub ledger: Ledger,
    pub counts: Counts,
}

impl Audit {
    // Compares a reading.
    fn compare<R: Reading>(&mut self, desk: &Desk, number: u32, at: MonthHour) {
        let expected = R::expected(&self.ledger, number, at);
        let same = agrees(expected, R::read(desk, number, at));
        self.counts.compared(R::CALL);
        self.counts.agree(same);
    }

    // Compares all lines and charges of an hour.
    pub fn compare_hour(&mut self, desk: &Desk, at: MonthHour) {
        for number in 0..3 {
            self.compare::<Entry>(desk, number, at);
            self.compare::<BuyerLine>(desk, number, at);
        }
    }

    // Compares the month's sums.
    pub fn compare_sums(&mut self, desk: &Desk) {
        self.counts.note(Call::Reconcile, Ok(self.ledger.totals()), desk.reconcile());
    }

    // Compares every hour of the month, its sums and its sheet.
    pub fn compare_month(&mut self, desk: &Desk) {
        for day in 1..31 {
            for hour in 1..25 {
                self.compare_hour(desk, MonthHour { day, hour });
            }
        }
        self.compare_sums(desk);
        self.compare_sheet(desk);
    }

    // Counts a call in an hour, and compares the hour.
    pub fn check(
        &mut self,
        desk: &Desk,
        at: MonthHour,
        call: Call,
        expected: Result<(), Refusal>,
        got: Result<(), Refusal>,
    ) {
        self.counts.note(call, expected, got);
        self.compare_hour(desk, at);
    }

    // Reads, over whole lists or over one that is a place too short.
    pub fn read<R: Reading>(&mut self, desk: &Desk, random: &mut Random) {
        let at = random.hour();
        let number = random.number();
        if random.one_in(10) {
            let got = R::read_short(desk, number, at);
            self.counts.note(R::CALL, Err(Refusal::ShortLists), got);
            return;
        }
        self.compare::<R>(desk, number, at);
        let expected = R::expected(&self.ledger, number, at);
        self.counts
            .note(R::CALL, expected, R::read(desk, number, at));
    }

    // Calls for a method by a text.
    pub fn call_method(&mut self, random: &mut Random) {
        let (text, expected) = match WAYS.get(random.below(8) as usize) {
            Some(way) => (way.text, Ok(())),
            None => ("max46", Err(Refusal::UnknownMethod)),
        };
        let got = text.parse::<Method>().map(|_| ());
        self.counts.note(Call::Method, expected, got);
    }

    // Writes the sheet over a long buffer, and over one that is a byte too short.
    fn compare_sheet(&mut self, desk: &Desk) {
        let text = text_of(&self.ledger);
        let mut buffer = [255; 600];
        let got = write_sheet(&desk.book, &desk.lines, &desk.charges, &mut buffer);
        self.counts.note(Call::Sheet, Ok(text.len()), got);
        self.counts.agree(holds(&buffer, text.as_str()));
        let end = text.len().saturating_sub(1).min(600);
        let mut short = [255; 600];
        let got = write_sheet(&desk.book, &desk.lines, &desk.charges, &mut short[..end]);
        self.counts
            .note(Call::Sheet, Err(Refusal::ShortBuffer), got);
        self.counts.agree(holds(&short, ""));
    }
}
