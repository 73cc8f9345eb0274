use lists::few::Few;
use members::group::Group;

// A chain of members, each one step from the one before it.
#[derive(Clone, Copy)]
pub struct Chain {
    pub members: Few<u32, 64>,
}

// Why a search finds no chain.
#[derive(Clone, Copy)]
pub enum NoChain {
    // Start or goal is no member.
    NotMembers,
    // No step leads out of this group, which holds the start and lacks the goal.
    Closed(Group),
}
