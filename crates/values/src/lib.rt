// The values of a vote-counting round: rounds, payloads, proposals, subjects, attestations and
// votes; the refusals, causes and activities with their numbers; equality by named functions.
#![tactic(auto)]

pub mod activity;
pub mod cause;
pub mod payload;
pub mod refusal;
pub mod same;
pub mod types;
