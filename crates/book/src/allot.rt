// Allotting an hour to its buyers, reopening it, and finishing its correction.
ghost use Rattle.std.specs.Prelude.{◌≡◌, ◌+◌, ◌*◌, ◌^◌, ◌≤◌, replicate, IfOk, None, slice_index_or, unsigned_abs};
ghost use Rattle.share.specs.Shares.{shares};
ghost use Rattle.won.specs.Sums.{total_to};
ghost use Rattle.table.specs.Lines.{no_line, no_charge, paid_of, fined_of};
ghost use Rattle.table.specs.Tables.{filled};
ghost use Rattle.book.specs.State.{paid_in, fined_in};
ghost use Rattle.book.specs.Calls.{charges_of, refusal, step};
ghost use Rattle.book.specs.Calls.Call.{allot, reopen, finish};
ghost use Rattle.book.specs.Seen.{seen, named_by, fresh, granted_or, back_or};

use crate::book::Book;
use crate::energies::Energies;
use crate::hour::Step;
use crate::month_hour::{HourNumber, MonthHour};
use crate::rows::{clear_row, put_row};
use crate::slip::{RefusedSlip, Slip};
use refusal::Refusal;
use share::share_out;
use std::array;
use table::lines::{BuyerLine, ResourceLine};
use table::table::{Rows, Sums};

// The shares of an amount, by the purchases.
fn shares_of(amount: i64, purchases: [u32; 8]) -> [i64; 16]
    ensures value { result ≡ shares amount purchases 16 }
{
    share_out(amount, &purchases).unwrap_or([0; 16])
}

// The charges of what is paid, and the refunds of what is fined, by the purchases.
fn charge_row(paid: i64, fined: i64, purchases: [u32; 8]) -> [BuyerLine; 8]
    ensures value { result ≡ filled (replicate 8 no_charge) 0 8 (charges_of paid fined purchases) }
{
    let charges = shares_of(paid, purchases);
    let refunds = shares_of(fined, purchases);
    array::from_fn(|k| BuyerLine {
        charge: charges[k],
        refund: refunds[k],
    })
}

impl Book {
    // What an hour's lines are paid and fined together.
    fn amounts_in(&self, lines: &[ResourceLine], h: HourNumber) -> Sums
        ensures due { result.due ≡ total_to self.now.register.enrolled (λ k. paid_of (slice_index_or lines.now (h.number * self.now.register.enrolled + k) no_line)) }
        ensures back { result.back ≡ total_to self.now.register.enrolled (λ k. fined_of (slice_index_or lines.now (h.number * self.now.register.enrolled + k) no_line)) }
        ensures bounded { (unsigned_abs result.due ≤ 2 ^ 36) × (unsigned_abs result.back ≤ 2 ^ 36) }
    {
        Rows {
            lines,
            width: self.register.enrolled,
        }
        .sums(h.number)
    }

    // Writes each buyer's charge and refund of an hour.
    pub(crate) fn charge_hour(
        &self,
        lines: &[ResourceLine],
        charges: &mut [BuyerLine],
        h: HourNumber,
        energies: Energies,
    )
        ensures value { charges.new ≡ filled charges.old (h.number * self.now.register.buyers) self.now.register.buyers (charges_of (paid_in (seen self.now lines.now charges.old) h.number) (fined_in (seen self.now lines.now charges.old) h.number) energies.purchases) }
    {
        let sums = self.amounts_in(lines, h);
        let row = charge_row(sums.due as i64, sums.back as i64, energies.purchases);
        put_row(charges, self.register.buyers, h.number, &row);
    }

    // Allots an hour that is open and whose energies were told.
    pub fn allot(
        &mut self,
        lines: &[ResourceLine],
        charges: &mut [BuyerLine],
        at: MonthHour,
    ) -> Result<(), Refusal>
        ensures answer { result ≡ granted_or (refusal (allot at.day at.hour) (seen self.old lines.now charges.old)) tt }
        ensures book { seen self.new lines.now charges.new ≡ (step (allot at.day at.hour) (seen self.old lines.now charges.old)).1 }
    {
        let h = self.hour_place(lines, charges, at)?;
        let energies = self.hours[h.number as usize].step(Step::Allot)?;
        self.charge_hour(lines, charges, h, energies);
        Ok(())
    }

    // Reopens an allotted hour, and hands out the slip that finishing it takes.
    pub fn reopen(
        &mut self,
        lines: &[ResourceLine],
        charges: &mut [BuyerLine],
        at: MonthHour,
    ) -> Result<Slip, Refusal>
        ensures answer { result ≡ granted_or (refusal (reopen at.day at.hour) (seen self.old lines.now charges.old)) (fresh self.old.register.number at.day at.hour) }
        ensures book { seen self.new lines.now charges.new ≡ (step (reopen at.day at.hour) (seen self.old lines.now charges.old)).1 }
        ensures finishes { IfOk result (λ slip. refusal (finish (named_by slip)) (seen self.new lines.now charges.new) ≡ None) }
    {
        let h = self.hour_place(lines, charges, at)?;
        self.hours[h.number as usize].step(Step::Reopen)?;
        clear_row(charges, self.register.buyers, h.number);
        Ok(Slip::new(self.register.number, at))
    }

    // Allots anew the hour of a slip of this book.
    fn correct(
        &mut self,
        lines: &[ResourceLine],
        charges: &mut [BuyerLine],
        slip: &Slip,
    ) -> Result<(), Refusal>
        ensures answer { result ≡ granted_or (refusal (finish (named_by slip.now)) (seen self.old lines.now charges.old)) tt }
        ensures book { seen self.new lines.now charges.new ≡ (step (finish (named_by slip.now)) (seen self.old lines.now charges.old)).1 }
    {
        let h = self.slip_place(lines, charges, slip)?;
        let energies = self.hours[h.number as usize].step(Step::Finish)?;
        self.charge_hour(lines, charges, h, energies);
        Ok(())
    }

    // Finishes the hour that a slip was handed out for, and spends the slip; a refusal hands it back.
    pub fn finish(
        &mut self,
        lines: &[ResourceLine],
        charges: &mut [BuyerLine],
        slip: Slip,
    ) -> Result<(), RefusedSlip>
        ensures answer { result ≡ back_or (refusal (finish (named_by slip)) (seen self.old lines.now charges.old)) slip }
        ensures book { seen self.new lines.now charges.new ≡ (step (finish (named_by slip)) (seen self.old lines.now charges.old)).1 }
    {
        // Stays: either arm takes the slip, and one closure could not.
        match self.correct(lines, charges, &slip) {
            Ok(()) => {
                slip.spend();
                Ok(())
            }
            Err(refusal) => Err(RefusedSlip { refusal, slip }),
        }
    }
}
