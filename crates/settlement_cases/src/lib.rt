// Settling over a source of this crate's own, and the cases that are worked by hand.
#![tactic(auto)]

pub mod steady;
#[cfg(test)]
mod tests;
