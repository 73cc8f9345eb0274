// A list of calls given to two new ledgers, and the law of router independence.
#![tactic(auto)]

pub mod entry;
pub mod replay;
mod serve;
pub mod sums;
mod tokens;
