ghost use Rattle.std.specs.Prelude.{◌≡◌, ℕ, not, ◌&&◌, ◌||◌, length, ◌==◌, nat_lt};
ghost use Rattle.members.specs.Groups.{inside, members_of};
ghost use Rattle.members.specs.Walks.{Lowest};

// A group of members, bit m for member m.
#[derive(Clone, Copy, Debug, Default, PartialEq, Eq)]
pub struct Group {
    pub bits: u64,
}

impl Group {
    // The group without members.
    pub fn empty() -> Group
        ensures { result.bits ≡ 0 }
    {
        Group { bits: 0 }
    }

    // The group of one member alone. No group holds a number above 63.
    #[tactic(auto, using(crate::proofs::Digits::single_at, crate::proofs::Digits::single_past))]
    fn of(member: u32) -> Group
        ensures { (n : ℕ) → inside result.bits n ≡ (n == member && nat_lt n 64) }
    {
        let bits = if member < 64 { 1 << member } else { 0 };
        Group { bits }
    }

    // Whether it holds a member. No group holds a number above 63.
    #[tactic(auto, using(crate::proofs::Digits::inside_shifted, crate::proofs::Digits::inside_past))]
    pub fn holds(self, member: u32) -> bool
        ensures { result ≡ inside self.bits member }
    {
        member < 64 && self.bits >> member & 1 == 1
    }

    // The group with one member more. A number above 63 changes nothing.
    pub fn with(self, member: u32) -> Group
        ensures { (n : ℕ) → inside result.bits n ≡ (inside self.bits n || (n == member && nat_lt n 64)) }
    {
        self.union(Group::of(member))
    }

    // The group without one of its members.
    pub fn without(self, member: u32) -> Group
        ensures { (n : ℕ) → inside result.bits n ≡ (inside self.bits n && not (n == member && nat_lt n 64)) }
    {
        self.minus(Group::of(member))
    }

    // The members of either group.
    #[tactic(auto, using(crate::proofs::Digits::inside_or))]
    pub fn union(self, other: Group) -> Group
        ensures { (n : ℕ) → inside result.bits n ≡ (inside self.bits n || inside other.bits n) }
    {
        Group {
            bits: self.bits | other.bits,
        }
    }

    // The members of this group that the other lacks.
    #[tactic(auto, using(crate::proofs::Digits::inside_minus))]
    pub fn minus(self, other: Group) -> Group
        ensures { (n : ℕ) → inside result.bits n ≡ (inside self.bits n && not (inside other.bits n)) }
    {
        Group {
            bits: self.bits & !other.bits,
        }
    }

    // How many members it has.
    #[tactic(auto, using(crate::proofs::Listed::ones_listed))]
    pub fn count(self) -> u32
        ensures { result ≡ length (members_of self.bits) }
    {
        self.bits.count_ones()
    }

    // The lowest of its members.
    #[tactic(auto, using(crate::proofs::Digits::lowest_digit))]
    pub(crate) fn lowest(self) -> Option<u32>
        ensures { Lowest self.bits result }
    {
        if self.bits == 0 {
            None
        } else {
            Some(self.bits.trailing_zeros())
        }
    }
}
