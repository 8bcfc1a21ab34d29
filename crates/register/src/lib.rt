// The register: it adds up the labels of traces, rule by rule, and keeps one live trace at a time.
#![tactic(auto)]

pub mod figures;
pub mod refusal;
pub mod register;
pub mod room;
pub mod slip;
mod standing;
mod tally;
mod totals;
