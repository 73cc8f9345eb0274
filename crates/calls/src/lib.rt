// The calls on a ledger and their answers, as plain values and in words.
#![tactic(auto)]

pub mod answer;
pub mod call;
pub mod said;
