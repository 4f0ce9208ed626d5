// The report of the usual load: a text of meter readings, and what a baseline source says of one day.
#![tactic(auto)]

mod asked;
pub mod fault;
mod fields;
pub mod hour;
mod lines;
pub mod meter;
mod reading;
pub mod request;
pub mod usual;
mod word;
mod words;
