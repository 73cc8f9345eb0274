// The worked sums, proved from the definitions.
ghost use Rattle.replay.specs.Sums.{Sums};

// Every worked sum holds, whatever routers serve the ledger.
pub fn sums_hold() -> u8
    ensures { Sums }
{
    0
}
