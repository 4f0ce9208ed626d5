// The month's book: its hours, its calls over two lent lists of lines, and what they add up to.
#![tactic(auto)]

mod allot;
pub mod book;
pub mod energies;
pub mod hour;
mod look;
pub mod month_hour;
pub mod open;
mod place;
pub mod read;
pub mod reconcile;
pub mod register;
mod rows;
pub mod settle;
pub mod slip;
mod tell;
mod withdraw;
