// Lines of mutual credit, net positions, rooms, plans and flows, and the refusals with their numbers.
#![tactic(auto)]

pub mod booking;
pub mod laws;
pub mod line;
pub mod net;
pub mod payment;
pub mod plan;
pub mod refusal;
pub mod room;
