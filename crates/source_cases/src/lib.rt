// Worked cases of load records and baseline sources.
#![tactic(auto)]

#[cfg(test)]
mod records;
#[cfg(test)]
mod sources;
