// What the round asks of a signature scheme, and the layers that stand over one.
#![tactic(auto)]

pub mod asking;
mod mask;
pub mod scheme;
pub mod verdicts;
pub mod withdrawn;
