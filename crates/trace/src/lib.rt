// Traces: sets of symbols, what an instant shows, and the one interface by which everything above reads a trace.
#![tactic(auto)]

pub mod reading;
pub mod source;
pub mod symbols;
pub mod unreadable;
