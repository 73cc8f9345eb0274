// What a ledger holds, and what holds of it between calls.
ghost use Rattle.std.specs.Prelude.{◌≡◌, ℕ, ◌≤◌, true, false, vec_len, vec_capacity};
ghost use Rattle.credit.specs.Sums.{every};
ghost use Rattle.credit.specs.Net.{bounded};
ghost use Rattle.credit.specs.Pairs.{distinct};
ghost use Rattle.ledger.specs.Sound.{complete, restorable, proper, strained};

use credit::line::Line;
use credit::payment::Payment;
use lists::few::Few;

// An open group of payments: the debts as at its begin, line by line, and whether it is spoiled.
#[derive(Clone, Copy)]
pub struct Savepoint {
    pub debts: Few<i32, 256>,
    // a flag: the debts are kept either way, so two cases with the same field would be no plainer
    pub spoiled: bool,
}

// The lines in opening order, the open groups of payments with the inmost last, and the standing reservation.
// All memory is taken by `new`: no call allocates.
#[derive(Drop)]
pub struct Ledger {
    pub(crate) lines: Vec<Line>,
    pub(crate) savepoints: Vec<Savepoint>,
    pub(crate) standing: Option<Payment>,
    ghost few: { vec_len lines ≤ 256 },
    ghost wide: { 256 ≤ vec_capacity lines },
    ghost bounds: { every bounded lines.items ≡ true },
    ghost pairs: { distinct lines.items ≡ true },
    ghost shallow: { vec_len savepoints ≤ 8 },
    ghost deep: { 8 ≤ vec_capacity savepoints },
    ghost complete: { complete lines.items savepoints.items ≡ true },
    ghost kept: { restorable lines.items savepoints.items ≡ true },
    ghost proper: { proper standing ≡ true },
    ghost fitting: { (g : ℕ) → strained standing g lines.items ≡ false },
}
