// Reads rule texts, as `s0 => (true since s3)`, and adds the rules that they write to a sheet.
#![tactic(auto)]

mod cursor;
mod draft;
mod drafting;
mod reader;
pub mod refusal;
pub mod rule_text;
mod term;
mod token;
