// Reads the records of a log file. A record is a two-byte mark, a two-byte body length with the
// high byte first, and the body.
#![tactic(auto)]

pub mod reader;
pub mod record;
