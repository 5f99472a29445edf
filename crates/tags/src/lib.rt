// The numbers that subjects have and the tags that keys give them: how the bench schemes sign.
#![tactic(auto)]

pub mod number;
pub mod signing;
