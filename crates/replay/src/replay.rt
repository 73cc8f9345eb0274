// A list of calls given alike to two new ledgers.
ghost use Rattle.std.specs.Prelude.{◌≡◌, IfOk};
ghost use Rattle.replay.specs.Law.{Law};
ghost use Rattle.replay.specs.Records.{Closed, ClosedTwice};

use crate::entry::Entry;
use crate::serve::serve;
use crate::tokens::{Served, give_back};
use calls::call::Call;
use credit::line::Line;
use ledger::reservation::Reservation;
use ledger::state::Ledger;
use routing::router::Router;
use std::alloc::{AllocError, Global};

// What a run shows: an entry for each call, and the lines as they stand at its end.
#[derive(Drop)]
pub struct Journal {
    pub entries: Vec<Entry>,
    pub lines: Vec<Line>,
}

// What two runs over the same calls show.
#[derive(Drop)]
pub struct TwoRuns {
    pub one: Journal,
    pub other: Journal,
}

// Gives a list of calls to a new ledger, each served by the router.
fn close<R: Router>(heap: Global, calls: &[Call], router: &mut R) -> Result<Journal, AllocError>
    ensures law { Law }
    ensures run { IfOk result (λ v. Closed calls.now v) }
{
    let mut entries = Vec::with_capacity(heap, calls.len())?;
    let mut ledger = Ledger::new(heap)?;
    let mut held: Option<Reservation> = None;
    for call in calls {
        let Served { answer, held: kept } = serve(&mut ledger, router, held, *call);
        held = kept;
        let nets = ledger.net_positions();
        entries.push_reserved(Entry {
            call: *call,
            answer,
            nets,
        });
    }
    let lines = ledger.lines().to_vec(heap);
    give_back(&mut ledger, held);
    Ok(Journal {
        entries,
        lines: lines?,
    })
}

// Two runs over the same calls, side by side.
fn side_by_side(calls: &[Call], one: Journal, other: Journal) -> TwoRuns
    requires first { Closed calls.now one }
    requires second { Closed calls.now other }
    ensures runs { ClosedTwice calls.now result.one result.other }
    ensures first { result.one ≡ one }
    ensures second { result.other ≡ other }
{
    TwoRuns { one, other }
}

// Gives a list of calls alike to two new ledgers, each served by a router of its own. Whatever routers they are, the
// answers and the net positions do not depend on them.
pub fn close_twice<R: Router, S: Router>(
    heap: Global,
    calls: &[Call],
    router: &mut R,
    rival: &mut S,
) -> Result<TwoRuns, AllocError>
    ensures law { Law }
    ensures runs { IfOk result (λ v. ClosedTwice calls.now v.one v.other) }
{
    let one = close(heap, calls, router)?;
    let other = close(heap, calls, rival)?;
    Ok(side_by_side(calls, one, other))
}
