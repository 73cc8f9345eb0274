// Routers that fill chains with room (augmenting paths): breadth and scaling.
#![tactic(auto)]

mod booked;
mod chain;
mod fill;
mod graph;
pub mod named;
mod rounds;
pub mod router;
