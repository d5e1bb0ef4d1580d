// The desk: the calls open, add, correct, remove and ask, with their refusals in order. No call has a `requires`.
// refusal.rt: the chain of each call; change.rt: open, add, correct, remove; question.rt: ask.
#![tactic(auto)]

pub mod change;
pub mod question;
pub mod refusal;
