// Sinks, which take pairs of numbers, and slips, which are settled with one.
#![tactic(auto)]

pub mod counter;
pub mod log;
pub mod optional;
pub mod pair;
pub mod sink;
pub mod slip;
