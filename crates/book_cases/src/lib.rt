// The book's calls tried: corrections in orders nobody planned, every refusal at its edge, and whole runs.
#![tactic(auto)]

pub mod corrections;
#[cfg(test)]
mod may;
#[cfg(test)]
mod openings;
#[cfg(test)]
mod refusals;
#[cfg(test)]
mod runs;
