// Sheets of temporal rows and rules: what a row is, which rows may stand on which, and mirroring.
#![tactic(auto)]

mod mirror;
pub mod refusal;
pub mod row;
pub mod sheet;
