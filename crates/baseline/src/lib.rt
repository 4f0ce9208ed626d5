// Baseline sources: what a customer would have used in an hour, and what the meter says.
#![tactic(auto)]

pub mod adjusted;
pub mod filed;
pub mod method;
pub mod methods;
pub mod ranked;
mod reference;
pub mod source;
mod striking;
