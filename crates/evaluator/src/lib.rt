// An evaluator that follows the definitions: it finds where a row holds by the quantifiers over instants, and not by the step from
// one instant to the next. It is what the labeller and the register are compared with.
#![tactic(auto)]

pub mod figures;
mod fold;
pub mod instants;
pub mod refusals;
mod short_trace;
pub mod standing;
pub mod truth;
