// Values within the bounds that a line's figures rest on.
ghost use Rattle.settlement.specs.Bounds.{Limited};

use crate::terms::Terms;
use std::marker::Model;

// Terms within their limits.
#[derive(Clone, Copy)]
pub(crate) struct LimitedTerms {
    pub(crate) terms: Terms,
    ghost limited: { Limited terms },
}

// A reduction in Wh, no further from nought than all customers of a resource can bring it.
#[derive(Clone, Copy)]
pub(crate) struct Reduction {
    pub(crate) wh: i64,
}

impl Model for Reduction {
    ghost use Rattle.std.specs.Prelude.{ℤ};

    ghost Value = { ℤ };

    ghost use Rattle.settlement.specs.Bounds.{Within};

    ghost view = { λ r. r.wh };

    ghost invariant = { λ r. Within 960000000 r.wh };

    ghost inverse = { λ z. record { wh = z } };
}

// A load in Wh, no more than all customers of a resource can reduce.
#[derive(Clone, Copy)]
pub(crate) struct Load {
    pub(crate) wh: u64,
}

impl Model for Load {
    ghost use Rattle.std.specs.Prelude.{ℕ, ◌≤◌};

    ghost Value = { ℕ };

    ghost view = { λ l. l.wh };

    ghost invariant = { λ l. l.wh ≤ 960000000 };

    ghost inverse = { λ n. record { wh = n } };
}
