// What the programs that compare share: numbers that look random, a tally of what agreed, and sheets, traces and records to compare on.
#![tactic(auto)]

pub mod events;
pub mod random;
pub mod records;
pub mod sheets;
pub mod tally;
