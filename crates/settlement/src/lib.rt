// The line of one resource's hour: what was reduced, what is paid for it, and what is fined.
#![tactic(auto)]

mod bounds;
mod figures;
pub mod hours;
pub mod kinds;
mod reduction;
pub mod settle;
pub mod terms;
