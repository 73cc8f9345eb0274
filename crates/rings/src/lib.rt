// Rings of debt: the graph of debts, and the cancelling of rings.
#![tactic(auto)]

mod graph;
mod ring;
pub mod tidy;
