// Member numbers, 0 to 63, and groups of members.
#![tactic(auto)]

pub mod group;
pub mod walk;
