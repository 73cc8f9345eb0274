ghost use Rattle.std.specs.Prelude.{◌≡◌, length};
ghost use Rattle.members.specs.Groups.{members_of};
ghost use Rattle.members.specs.Walks.{Walked};
ghost use Rattle.std.specs.Iterator.{at_most};

use crate::group::Group;

// A walk over the members of a group, rising.
#[derive(Clone, Copy)]
pub struct Walk {
    rest: Group,
}

impl Group {
    // A walk over its members.
    pub fn walk(self) -> Walk
        ensures { result.rest ≡ self }
    {
        Walk { rest: self }
    }
}

impl Iterator for Walk {
    type Item = u32;

    ghost next_gives = { λ a r b. Walked a.rest.bits r b.rest.bits };

    ghost remaining = { λ w. at_most (length (members_of w.rest.bits)) };

    #[tactic(auto, using(crate::proofs::Listed::took_lowest, crate::proofs::Listed::none_listed))]
    fn next(&mut self) -> Option<u32> {
        let member = self.rest.lowest()?;
        self.rest = self.rest.without(member);
        Some(member)
    }
}
