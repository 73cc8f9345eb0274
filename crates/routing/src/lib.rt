// The meaning of a router, and the layers over any router.
#![tactic(auto)]

pub mod checks;
pub mod direct;
pub mod kept;
pub mod memory;
pub mod router;
