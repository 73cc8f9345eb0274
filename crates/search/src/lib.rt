// One breadth-first search over every graph on the members that tells whom a member reaches in one step.
#![tactic(auto)]

pub mod breadth_first;
pub mod chain;
pub mod graph;
pub mod rows;
