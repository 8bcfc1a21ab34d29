// Labelling event traces against a sheet: the verdict of every row at every instant.
#![tactic(auto)]

mod cells;
pub mod kind;
pub mod labelling;
pub mod refusal;
mod sweep;
pub mod verdict;
