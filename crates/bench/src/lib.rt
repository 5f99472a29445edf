// Signature schemes for trials and comparisons: sums and seals of numbers, not secrets.
#![tactic(auto)]

pub mod listed;
pub mod masked;
mod slate;
pub mod summed;
mod tagged;
pub mod worked;
