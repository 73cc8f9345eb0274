// A batch closed on a ledger: its door, its forms carried out, its end and its statement.
#![tactic(auto)]

pub mod batches;
mod marks;
pub mod month;
mod outcome;
pub mod picking;
pub mod routers;
mod run;
pub mod samples;
mod statement;
