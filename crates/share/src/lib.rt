// Shares of an amount of won, by weight.
#![tactic(auto)]

ghost use Rattle.std.specs.Prelude.{◌≡◌, ◌*◌, ◌^◌, ◌<◌, ◌≤◌, true, length, pos, ◌-ℤ◌, ◌*ℤ◌, ◌<ℤ◌, is_some, IfSome, sum, nat_le, unsigned_abs};
ghost use Rattle.std.specs.Int.{int_div_euclid};
ghost use Rattle.share.specs.Shares.{shared};
ghost use Rattle.share.specs.Laws.{EachShare, AddUp, Near, WeightlessNone, WithinAmount, NoFurther};

// An amount is shared among this many places at most.
pub const PLACES: usize = 16;

// Stays: the bounds of sixteen weights stand in three small steps of one call.
// What the weights come to.
fn total_of(weights: &[u32]) -> u64
    requires few { length weights.now ≤ 16 }
    ensures value { result ≡ sum weights.now }
    ensures bounded { result < 2 ^ 36 }
{
    weights.iter().map(|weight| u64::from(*weight)).sum()
}

// The part of the amount that falls on the weight `upto` of `total`, brought down to a whole won, below nought too.
fn part_of(amount: i64, upto: u64, total: u64) -> i128
    requires some { 0 < total }
    requires small { upto < 2 ^ 36 }
    ensures value { result ≡ int_div_euclid (amount *ℤ pos upto) (pos total) }
    ensures bounded { unsigned_abs result ≤ 2 ^ 99 }
{
    let product = i128::from(amount) * i128::from(upto);
    product.div_euclid(i128::from(total))
}

// The share of a place whose weight goes from `before` to `upto` of `total`.
fn share_of(amount: i64, before: u64, upto: u64, total: u64) -> i128
    requires some { 0 < total }
    requires within { (before ≤ upto) × (upto ≤ total) }
    requires small { total < 2 ^ 36 }
    ensures value { result ≡ int_div_euclid (amount *ℤ pos upto) (pos total) -ℤ int_div_euclid (amount *ℤ pos before) (pos total) }
{
    part_of(amount, upto, total) - part_of(amount, before, total)
}

// The share of each place, 0 past the weights and where all weights are 0; none for more than 16 weights.
pub fn share_out(amount: i64, weights: &[u32]) -> Option<[i64; PLACES]>
    ensures value { result ≡ shared amount weights.now }
    ensures some { length weights.now ≤ 16 → is_some result ≡ true }
    ensures each { IfSome result (EachShare amount weights.now) }
    ensures adds { IfSome result (AddUp amount weights.now) }
    ensures near { IfSome result (Near amount weights.now) }
    ensures none { IfSome result (WeightlessNone weights.now) }
    ensures within { IfSome result (WithinAmount amount) }
    ensures bounded { IfSome result (NoFurther amount) }
{
    if weights.len() > PLACES {
        return None;
    }
    let mut shares = [0i64; PLACES];
    let total = total_of(weights);
    if total == 0 {
        return Some(shares);
    }
    let mut before = 0u64;
    // Stays: over `shares.iter_mut().zip(weights)` nothing is known of the shares after the loop.
    for (k, weight) in weights.iter().enumerate() {
        let upto = before + u64::from(*weight);
        let share = share_of(amount, before, upto, total);
        shares[k] = share as i64;
        before = upto;
    }
    Some(shares)
}

#[cfg(test)]
mod tests {
    use super::*;
    use std::process::Abort;
    use std::test::Fail;

    // Checks the first three shares.
    fn shares_are(
        rt: &impl Abort,
        amount: i64,
        weights: &[u32],
        expected: (i64, i64, i64),
    ) -> Result<(), Fail> {
        let shares = share_out(amount, weights).ok_or("refused")?;
        assert_eq!(rt; (shares[0], shares[1], shares[2]), expected);
        Ok(())
    }

    #[test]
    fn an_amount_by_weight(rt: HostRuntime) -> Result<(), Fail> {
        shares_are(&rt, 100, &[1, 1, 1], (33, 33, 34))?;
        shares_are(&rt, 2, &[1, 1, 1], (0, 1, 1))?;
        shares_are(&rt, 100, &[0, 4, 6], (0, 40, 60))
    }

    #[test]
    fn an_amount_below_nought(rt: HostRuntime) -> Result<(), Fail> {
        shares_are(&rt, -100, &[1, 1, 1], (-34, -33, -33))?;
        shares_are(&rt, -2, &[1, 1, 1], (-1, -1, 0))
    }

    #[test]
    fn no_weight_at_all(rt: HostRuntime) {
        assert_eq!(rt; share_out(100, &[0, 0]), Some([0; 16]));
        assert_eq!(rt; share_out(100, &[]), Some([0; 16]));
    }

    #[test]
    fn sixteen_weights_and_no_more(rt: HostRuntime) {
        assert_eq!(rt; share_out(-32, &[1; 16]), Some([-2; 16]));
        assert_eq!(rt; share_out(17, &[1; 17]), None);
    }
}
