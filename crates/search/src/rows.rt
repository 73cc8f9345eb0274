ghost use Rattle.std.specs.Prelude.{◌≡◌, ℕ, true, false, ◌&&◌, ◌||◌, get_or, ◌==◌, nat_lt, slice_index_or};
ghost use Rattle.members.specs.Groups.{inside};
ghost use Rattle.search.specs.Rowed.{nobody, reaches};

use crate::graph::Graph;
use members::group::Group;

// A graph kept as whom each member reaches in one step.
#[derive(Clone, Copy)]
pub struct Rows {
    sets: [Group; 64],
}

impl Rows {
    // The graph without steps.
    pub fn new() -> Rows
        ensures { (m n : ℕ) → reaches result m n ≡ false }
    {
        Rows { sets: no_steps() }
    }

    // Adds the step between two members; a number above 63 changes nothing.
    pub fn add(&mut self, from: u32, to: u32)
        ensures { (m n : ℕ) → reaches self.new m n ≡ (reaches self.old m n || (m == from && nat_lt m 64 && (n == to && nat_lt n 64))) }
    {
        // no `get_mut`: at an array it promises nothing of what a write through it leaves
        if from < 64 {
            let i = from as usize;
            self.sets[i] = self.sets[i].with(to);
        }
    }
}

impl Graph for Rows {
    ghost steps = { λ rows m n. reaches rows m n ≡ true };

    fn reached(&self, from: u32) -> Group {
        self.sets
            .get(from as usize)
            .copied()
            .unwrap_or(Group::empty())
    }
}

// Rows that are all empty.
fn no_steps() -> [Group; 64]
    ensures { (m n : ℕ) → inside (get_or result m nobody).bits n ≡ false }
{
    [Group::empty(); 64]
}
