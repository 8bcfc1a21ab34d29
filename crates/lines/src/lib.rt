// The lines of the report: what each one says, byte by byte. A line is a value on the stack, so writing one never fails.
#![tactic(auto)]

pub mod line;
pub mod wording;
