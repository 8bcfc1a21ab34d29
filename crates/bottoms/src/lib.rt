// Bottoms: the sources that read a record, which is bytes that the caller keeps.
#![tactic(auto)]

mod code;
pub mod codes;
pub mod record;
pub mod runs;
pub mod snapshots;
