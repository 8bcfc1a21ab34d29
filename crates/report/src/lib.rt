// The report: what a rules file and a log come to, as one text whose every byte is promised.
#![tactic(auto)]

pub mod desk;
mod log;
mod output;
pub mod records;
pub mod rules;
