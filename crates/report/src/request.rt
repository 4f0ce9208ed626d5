// What a text asks for: the day, the customers, the classes of days, and what the meters read.
ghost use Rattle.std.specs.Prelude.{◌≡◌, ◌≤◌};

use crate::hour::{Purchases, Settling};
use crate::meter::Meter;
use std::marker::Model;

// A byte for each day by class, left out and start of the first order; a number for each load or reading.
// Stays: record, left-out layer and adjusting layer are each lent a table with a byte for each day, so the three lie apart.
#[derive(Drop)]
pub struct Request {
    pub(crate) day: Option<u32>,
    pub(crate) customers: u32,
    pub(crate) classes: [u8; 96],
    pub(crate) left_out: [u8; 96],
    pub(crate) starts: [u8; 96],
    pub(crate) meter: Option<Meter>,
    pub(crate) numbers: Vec<u32>,
    pub(crate) settling: Option<Settling>,
    pub(crate) purchases: Option<Purchases>,
}

// Contracts see what it holds.
impl Model for Request {
    ghost use Rattle.std.specs.Prelude.{◌≡◌, ◌≤◌, vec_items, vec_len};
    ghost use Rattle.report.specs.Asked.{Asked};

    ghost Value = { Asked };

    ghost view = { λ q. record {
      day = q.day;
      customers = q.customers;
      classes = q.classes;
      left_out = q.left_out;
      starts = q.starts;
      meter = q.meter;
      numbers = vec_items q.numbers;
      settling = q.settling;
      purchases = q.purchases;
    } };

    ghost invariant = { λ q. (vec_len q.numbers ≡ 36880) × (q.customers ≤ 16) };
}
