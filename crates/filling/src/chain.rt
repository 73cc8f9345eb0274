// The hops of a chain of members, and the least of their rooms.
ghost use Rattle.std.specs.Prelude.{◌≡◌, ℕ, ◌+◌, ◌<◌, length, pos, slice_index, slice_index_or};
ghost use Rattle.std.specs.List.{All};
ghost use Rattle.std.specs.Int.{int_min};
ghost use Rattle.lists.specs.Lists.{listed};
ghost use Rattle.search.specs.Answers.{steps};
ghost use Rattle.filling.specs.Steps.{LeadsAt, RoomStep};
ghost use Rattle.filling.specs.Fillings.{no_hop, Over, room_over, least_over};

use crate::booked::Booked;
use crate::graph::leads_to;
use arrayvec::ArrayVec;
use search::chain::Chain;

// A step of a chain: over the line at this place, from this member.
#[derive(Clone, Copy, Default)]
pub(crate) struct Hop {
    pub(crate) place: usize,
    pub(crate) from: u32,
}

impl Booked<'_, '_> {
    // The first line that leads from one member to another with room of at least so much.
    fn place(&self, least: u32, from: u32, to: u32) -> usize
        requires { RoomStep self.now (pos least) from to }
        ensures { LeadsAt self.now (pos least) from to result }
    {
        let first = self.lines.iter().zip(self.plan).position(|(line, planned)| leads_to(
            line, *planned, least, from, to,
        ));
        match first {
            Some(place) => place,
            // the step goes over some line
            None => unreachable(),
        }
    }

    // The steps of a chain, each over the first line that it can go over.
    pub(crate) fn hops(&self, least: u32, chain: &Chain) -> ArrayVec<Hop, 64>
        requires { (i : ℕ) → i < steps chain.now → RoomStep self.now (pos least) (slice_index (listed chain.now.members) i) (slice_index (listed chain.now.members) (i + 1)) }
        ensures count { length result.items ≡ steps chain.now }
        ensures within { All (λ h. h.place < length self.now) result.items }
        ensures over { (i : ℕ) → i < length result.items → Over self.now (pos least) (listed chain.now.members) i (slice_index_or result.items i no_hop) }
    {
        let mut hops = ArrayVec::new();
        for pair in chain.members.as_slice().windows(2) {
            hops.push(Hop {
                place: self.place(least, pair[0], pair[1]),
                from: pair[0],
            });
        }
        hops
    }

    // The room over a hop, or the least room so far where that is less.
    #[tactic(auto, using(crate::proofs::Leasts::rooms))]
    fn lesser_room(&self, hop: Hop, least: i64) -> i64
        requires { hop.place < length self.now }
        ensures { result ≡ int_min least (room_over self.now hop) }
    {
        let Booked { lines, plan } = self;
        least.min(lines[hop.place].room_from(plan[hop.place], hop.from))
    }

    // The least room over the hops, or what is still to send where that is less.
    pub(crate) fn least_room(&self, hops: &[Hop], left: i32) -> i64
        requires { All (λ h. h.place < length self.now) hops.now }
        ensures { result ≡ least_over self.now hops.now left }
    {
        let mut least = i64::from(left);
        for hop in hops {
            least = self.lesser_room(*hop, least);
        }
        least
    }
}
