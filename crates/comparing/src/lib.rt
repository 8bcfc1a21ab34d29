// Compares the labeller, the register and the rule-text reader with an evaluator that follows the definitions, on random sheets,
// traces, records and texts and at the edges, and prints how many comparisons agreed. Three programs stand on it: everything, and
// two parts.
#![tactic(auto)]

mod copies;
mod edge_records;
mod edge_registers;
mod edge_texts;
mod expansion;
mod labels;
mod live;
pub mod parts;
mod plain_lists;
mod registers;
mod rows;
mod standing;
mod texts;
mod trial;
