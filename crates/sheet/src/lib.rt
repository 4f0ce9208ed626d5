// The evening sheet: entries of a key and a number, written forward into a lent buffer.
#![tactic(auto)]

pub mod entry;
mod gather;
mod page;
pub mod sheet;
mod sink;
mod sums;
mod write;
