ghost use Rattle.std.specs.Prelude.{◌≡◌, true, pos, ◌-ℤ◌, neg_ℤ, ◌≤ℤ◌};
ghost use Rattle.credit.specs.Net.{in_trust, framed, affordable, bounded, share as share_of};
ghost use Rattle.credit.specs.Sums.{only};
ghost use Rattle.credit.specs.Rooms.{room_onward, room_back, room_out};
ghost use Rattle.credit.specs.Pairs.{joins as joined_by};
ghost use Rattle.credit.specs.Plans.{moved, room_from};

use members::group::Group;

// A line of mutual credit between the members a and b, a below b. Amounts are in minutes.
// A record may hold anything: what breaks the bounds of a line is refused where it is read.
#[derive(Clone, Copy, Debug, PartialEq, Eq)]
pub struct Line {
    pub a: u32,
    pub b: u32,
    // the most that b may owe a
    pub trust_a: i32,
    // the most that a may owe b
    pub trust_b: i32,
    // what b owes a; negative where a owes b
    pub debt: i32,
}

// Whether a trust is in range.
pub fn in_trust(trust: i32) -> bool
    ensures { result ≡ in_trust trust }
{
    (0..=1_000_000).contains(&trust)
}

impl Line {
    // Whether the line keeps the bounds that every line of a ledger keeps.
    pub fn is_bounded(&self) -> bool
        ensures { result ≡ bounded self.now }
    {
        self.is_framed() && self.is_affordable()
    }

    // Whether its ends and trusts are in range.
    fn is_framed(&self) -> bool
        ensures { result ≡ framed self.now }
    {
        self.a < self.b && self.b < 64 && in_trust(self.trust_a) && in_trust(self.trust_b)
    }

    // Whether its debt is within its trusts.
    fn is_affordable(&self) -> bool
        ensures { result ≡ affordable self.now }
    {
        -i64::from(self.trust_b) <= i64::from(self.debt) && self.debt <= self.trust_a
    }

    // What the line brings to a member's net position.
    pub fn share(&self, member: u32) -> i64
        ensures { result ≡ share_of member self.now }
    {
        self.debt_if(member == self.a) - self.debt_if(member == self.b)
    }

    // The debt where the test holds, else 0.
    fn debt_if(&self, test: bool) -> i64
        ensures value { result ≡ only test self.now.debt }
        ensures bound { (neg_ℤ (pos 2147483648) ≤ℤ result) × (result ≤ℤ pos 2147483648) }
    {
        if test { i64::from(self.debt) } else { 0 }
    }

    // Moves a planned number from a to b.
    pub(crate) fn shift(&mut self, planned: i32)
        requires { bounded (moved self.old planned) ≡ true }
        ensures { self.new ≡ moved self.old planned }
    {
        self.debt -= planned;
    }

    // The debt once a planned number is moved from a to b.
    fn debt_after(&self, planned: i32) -> i64
        ensures value { result ≡ self.now.debt -ℤ planned }
        ensures bound { (neg_ℤ (pos 4294967296) ≤ℤ result) × (result ≤ℤ pos 4294967296) }
    {
        i64::from(self.debt) - i64::from(planned)
    }

    // The room from a to b once a planned number is moved.
    pub fn room_onward(&self, planned: i32) -> i64
        ensures { result ≡ room_onward (moved self.now planned) }
    {
        self.debt_after(planned) + i64::from(self.trust_b)
    }

    // The room from b to a once a planned number is moved.
    pub fn room_back(&self, planned: i32) -> i64
        ensures { result ≡ room_back (moved self.now planned) }
    {
        i64::from(self.trust_a) - self.debt_after(planned)
    }

    // Whether it joins two members, in either order.
    pub fn joins(&self, first: u32, second: u32) -> bool
        ensures { result ≡ joined_by first second self.now }
    {
        first == self.a && second == self.b || first == self.b && second == self.a
    }

    // The room from one of its ends to the other once a planned number is moved.
    pub fn room_from(&self, planned: i32, from: u32) -> i64
        ensures { result ≡ room_from (moved self.now planned) from }
    {
        if self.a == from {
            self.room_onward(planned)
        } else {
            self.room_back(planned)
        }
    }

    // What the line brings to the room of a group once a planned number is moved.
    pub(crate) fn room_out(&self, planned: i32, group: Group) -> i64
        ensures { result ≡ room_out group.bits (moved self.now planned) }
    {
        match (group.holds(self.a), group.holds(self.b)) {
            (true, false) => self.room_onward(planned),
            (false, true) => self.room_back(planned),
            _ => 0,
        }
    }
}
