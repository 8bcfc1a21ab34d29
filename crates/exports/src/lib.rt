// Calls for programs in other languages. Each takes and fills numbers and slices, and nothing is kept from one call to the next.
#![tactic(auto)]

mod answer;
pub mod peeking;
pub mod reporting;
pub mod rules;
pub mod taking;
