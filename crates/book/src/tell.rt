// Telling an hour's energies.
ghost use Rattle.std.specs.Prelude.{◌≡◌, ◌≤◌, length, replicate, sum, slice_index, slice_set};
ghost use Rattle.refusal.specs.Tests.{first_of};
ghost use Rattle.table.specs.Tables.{filled};
ghost use Rattle.book.specs.Telling.{energies_tests, energies_of};
ghost use Rattle.book.specs.Calls.{refusal, step};
ghost use Rattle.book.specs.Calls.Call.{tell};
ghost use Rattle.book.specs.Seen.{seen, granted_or};

use crate::book::Book;
use crate::energies::Energies;
use crate::month_hour::MonthHour;
use refusal::Refusal;
use table::lines::{BuyerLine, ResourceLine};

// The greatest total of an hour, in kWh.
const MOST_TOTAL: u32 = 150_000_000;

// What the buyers but the retailer purchased together.
fn total_of(others: &[u32]) -> u64
    requires { length others.now ≤ 7 }
    ensures value { result ≡ sum others.now }
{
    others.iter().map(|other| u64::from(*other)).sum()
}

// The retailer's purchase, then the others'.
fn purchases_of(retailer: u32, others: &[u32]) -> [u32; 8]
    requires { length others.now ≤ 7 }
    ensures value { result ≡ slice_set (filled (replicate 8 0) 1 (length others.now) (λ k. slice_index others.now k)) 0 retailer }
{
    let mut purchases = [0; 8];
    purchases[1..1 + others.len()].copy_from_slice(others);
    purchases[0] = retailer;
    purchases
}

// The energies of a total and the purchases of the buyers but the retailer.
fn energies(buyers: u32, total: u32, others: &[u32]) -> Result<Energies, Refusal>
    requires { buyers ≤ 8 }
    ensures value { result ≡ granted_or (first_of (energies_tests buyers total others.now)) (energies_of total others.now) }
{
    if total == 0 || total > MOST_TOTAL {
        return Err(Refusal::BadTotal);
    }
    if others.len() + 1 != buyers as usize {
        return Err(Refusal::PurchaseCount);
    }
    let all = total_of(others);
    if all > u64::from(total) {
        return Err(Refusal::PurchasesExceedTotal);
    }
    Ok(Energies {
        total,
        purchases: purchases_of(total - all as u32, others),
    })
}

impl Book {
    // Tells the energies of an hour that is not allotted; they replace those told before.
    pub fn tell(
        &mut self,
        lines: &[ResourceLine],
        charges: &[BuyerLine],
        at: MonthHour,
        total: u32,
        others: &[u32],
    ) -> Result<(), Refusal>
        ensures answer { result ≡ granted_or (refusal (tell at.day at.hour total others.now) (seen self.old lines.now charges.now)) tt }
        ensures book { seen self.new lines.now charges.now ≡ (step (tell at.day at.hour total others.now) (seen self.old lines.now charges.now)).1 }
    {
        let h = self.telling_place(lines, charges, at)?;
        let told = energies(self.register.buyers, total, others)?;
        let hour = &mut self.hours[h.number as usize];
        *hour = hour.told(told);
        Ok(())
    }
}
