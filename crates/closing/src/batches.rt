// Batches closed on a ledger.
ghost use Rattle.std.specs.Prelude.{◌≡◌, ◌+◌, ◌≤◌, min, [], length, vec_capacity};
ghost use Rattle.ledger.specs.States.{state_of};
ghost use Rattle.batch.specs.declared.form.Choice.TheVariants.{Breadth as ByBreadth};
ghost use Rattle.routing.specs.Kept.{remembered};
ghost use Rattle.closing.specs.Closes.{door_checks, Carried};
ghost use Rattle.closing.specs.Fairs.{Fair};
ghost use Rattle.closing.specs.Batches.{Closing, ClosesOrStays};
ghost use Rattle.closing.specs.Agrees.{SheetLaw};

use crate::picking::Picks;
use crate::routers::Routers;
use crate::run::Run;
use crate::statement::add_statement;
use batch::sheet::SheetLine;
use credit::refusal::Refusal;
use ledger::state::Ledger;
use routing::router::Router;
use std::alloc::{AllocError, Global};

// The most bytes that a batch may have.
pub const LONGEST_BATCH: usize = 32768;

// The lines that a sheet may have beside one for each line of the batch: eight abandoned groups, 64 net positions, 256
// debts and the end.
const OTHER_LINES: usize = 329;

// Whether a batch may be carried out at all.
fn door(ledger: &Ledger, batch: &[u8]) -> Result<(), Refusal>
    ensures { result ≡ door_checks (state_of ledger.now) batch.now }
{
    if batch.len() > LONGEST_BATCH {
        return Err(Refusal::BatchTooLong);
    }
    if ledger.reservation_stands() {
        return Err(Refusal::ReservationStands);
    }
    if ledger.open_groups() > 0 {
        return Err(Refusal::SavepointOpen);
    }
    Ok(())
}

// Closes a batch that is past its door.
fn close_open<R: Router + Picks>(
    ledger: &mut Ledger,
    router: &mut R,
    batch: &[u8],
    sheet: &mut Vec<SheetLine>,
)
    requires fair { Fair (state_of ledger.old) [] }
    requires empty { sheet.old.items ≡ [] }
    requires places { length batch.now + 329 ≤ vec_capacity sheet.old }
    ensures carried { Carried (state_of ledger.old) batch.now sheet.new.items (state_of ledger.new) }
    ensures fair { Fair (state_of ledger.new) [] }
{
    let mut run = Run::new(ledger, router);
    run.carry_all(batch, sheet);
    run.abandon_all(sheet);
    let nets = ledger.net_positions();
    add_statement(sheet, ledger.lines(), &nets);
}

// Closes a batch on an empty sheet that has places enough.
fn close_into<R: Router + Picks>(
    ledger: &mut Ledger,
    router: &mut R,
    batch: &[u8],
    sheet: &mut Vec<SheetLine>,
)
    requires empty { sheet.old.items ≡ [] }
    requires places { min (length batch.now) 32768 + 329 ≤ vec_capacity sheet.old }
    ensures { Closing (state_of ledger.old) batch.now sheet.new.items (state_of ledger.new) }
{
    match door(ledger, batch) {
        Err(refusal) => sheet.push_reserved(SheetLine::Refused { line: 0, refusal }),
        Ok(()) => close_open(ledger, router, batch, sheet),
    }
}

// Closes a batch: carries out its lines in order, abandons the groups that it leaves open, and states the ledger. The
// memory for the sheet is taken first: where there is none, nothing has moved.
pub fn close_with<R: Router + Picks>(
    ledger: &mut Ledger,
    router: &mut R,
    batch: &[u8],
    heap: Global,
) -> Result<Vec<SheetLine>, AllocError>
    ensures closing { ClosesOrStays (state_of ledger.old) batch.now result (state_of ledger.new) }
    ensures law { SheetLaw }
{
    let mut sheet = Vec::with_capacity(heap, batch.len().min(LONGEST_BATCH) + OTHER_LINES)?;
    close_into(ledger, router, batch, &mut sheet);
    Ok(sheet)
}

// Closes a batch by routers of which none has served yet: direct first over breadth is picked, and no group is remembered.
fn close_afresh(
    ledger: &mut Ledger,
    routers: &mut Routers,
    batch: &[u8],
    heap: Global,
) -> Result<Vec<SheetLine>, AllocError>
    requires choice { routers.old.choice ≡ ByBreadth }
    requires memory { remembered routers.old.kept.memory ≡ [] }
    ensures closing { ClosesOrStays (state_of ledger.old) batch.now result (state_of ledger.new) }
    ensures law { SheetLaw }
{
    close_with(ledger, routers, batch, heap)
}

// Closes a batch by the routers that it picks, direct first over breadth at the start.
pub fn close_batch(
    ledger: &mut Ledger,
    batch: &[u8],
    heap: Global,
) -> Result<Vec<SheetLine>, AllocError>
    ensures closing { ClosesOrStays (state_of ledger.old) batch.now result (state_of ledger.new) }
    ensures law { SheetLaw }
{
    close_afresh(ledger, &mut Routers::new(), batch, heap)
}
