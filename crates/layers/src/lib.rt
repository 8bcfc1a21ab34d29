// Layers: sources that hold any source by value and show its trace reversed, in part, or renamed.
#![tactic(auto)]

pub mod refusal;
pub mod renamed;
pub mod renaming;
pub mod reversed;
pub mod segment;
