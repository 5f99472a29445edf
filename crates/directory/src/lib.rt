// The participants of a view: 1 to 64 keys in ascending order, their numbers and their quorum.
#![tactic(auto)]

pub mod directory;
