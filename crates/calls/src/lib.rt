// The calls that a round takes, and the 88-byte records that hold them.
#![tactic(auto)]

pub mod call;
mod conversion;
mod fields;
pub mod records;
mod shape;
