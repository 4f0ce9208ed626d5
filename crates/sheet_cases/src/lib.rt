// Worked cases of the evening sheet.
#![tactic(auto)]

#[cfg(test)]
mod sheets;
