// The ledger: lines, open groups of payments, the standing reservation, and the calls on them.
#![tactic(auto)]

mod checks;
pub mod lines;
pub mod payments;
pub mod plan_guard;
pub mod questions;
pub mod reservation;
pub mod reservations;
pub mod savepoints;
mod serving;
mod stack;
pub mod state;
pub mod tidying;
