// Settling a resource's hour over a scheduled and a mandatory source.
ghost use Rattle.std.specs.Prelude.{◌≡◌, MatchResult, None, Some};
ghost use Rattle.settlement.specs.Settle.{settled, terms_refusal};

use crate::bounds::LimitedTerms;
use crate::hours::takes_order;
use crate::terms::{Line, ResourceHour};
use baseline::source::BaselineSource;
use refusal::Refusal;

// The greatest plan, in Wh.
const MAX_PLAN: u32 = 640_000_000;

// The greatest order, in Wh.
const MAX_ORDER: u32 = 500_000_000;

// The greatest price, in hundredths of a won per kWh.
const MAX_PRICE: u32 = 200_000;

impl ResourceHour {
    // The terms, or what they are refused for by themselves.
    fn admitted(&self) -> Result<LimitedTerms, Refusal>
        ensures value { MatchResult result
            (λ admitted. (terms_refusal self.now.portfolio self.now.slot self.now.terms ≡ None) × (admitted.terms ≡ self.now.terms))
            (λ refusal. terms_refusal self.now.portfolio self.now.slot self.now.terms ≡ Some refusal) }
    {
        let ResourceHour {
            portfolio,
            slot,
            terms,
        } = *self;
        if terms.plan == 0 && terms.order == 0 {
            return Err(Refusal::NeitherPlanNorOrder);
        }
        if terms.plan > MAX_PLAN
            || terms.order > MAX_ORDER
            || terms.smp > MAX_PRICE
            || terms.mgp > MAX_PRICE
        {
            return Err(Refusal::AboveLimit);
        }
        if (terms.emergency || terms.test) && terms.order == 0 {
            return Err(Refusal::MarkWithoutOrder);
        }
        if terms.order != 0 && !takes_order(portfolio.kind, slot.class, slot.month, slot.hour) {
            return Err(Refusal::OutsideOrderHours);
        }
        Ok(LimitedTerms { terms })
    }

    // The line of a resource's hour, or the first reason to refuse it.
    pub fn settle<S: BaselineSource, M: BaselineSource>(
        &self,
        scheduled: &S,
        mandatory: &M,
        marks: &[u8],
    ) -> Result<Line, Refusal>
        ensures value { result ≡ settled (S.BaselineSource.meaning scheduled.now) (M.BaselineSource.meaning mandatory.now) marks.now self.now.portfolio self.now.slot self.now.terms }
    {
        let terms = self.admitted()?;
        let sr = self
            .scheduled_reduction(scheduled, marks)
            .map_err(Refusal::Scheduled)?;
        let dr = self
            .mandatory_reduction(mandatory)
            .map_err(Refusal::Mandatory)?;
        Ok(terms.line(sr, dr))
    }
}
