// What the program does with votes in records: it judges their signatures, and gives them good ones.
#![tactic(auto)]

pub mod votes;
