// What votelog prints and reads: calls in words. The text has no contracts; the tests of the crate
// trials hold it to tables.
#![tactic(auto)]

pub mod checking;
pub mod failure;
pub mod lines;
pub mod payloads;
pub mod reading;
pub mod showing;
mod words;
pub mod writing;
