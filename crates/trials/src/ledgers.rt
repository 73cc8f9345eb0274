// A line, a group of payments and the refusals that they meet.
use calls::call::Closing;
use credit::refusal::Refusal;
use ledger::state::Ledger;
use std::test::*;

#[test]
fn a_line_and_a_group(rt: HostRuntime) -> Result<(), Fail> {
    let mut ledger = Ledger::new(rt.alloc())?;
    assert_eq!(rt; ledger.open(3, 2, 20, 40), Ok(()));
    assert_eq!(rt; ledger.open(2, 3, 1, 1), Err(Refusal::PairHasLine));
    assert_eq!(rt; ledger.begin(), Ok(()));
    assert_eq!(rt; ledger.open(4, 5, 1, 1), Err(Refusal::SavepointOpen));
    assert!(rt; matches!(ledger.abandon(), Ok(Closing::Undone)));
    assert!(rt; matches!(ledger.end(), Err(Refusal::NoSavepoint)));
    assert!(rt; matches!(ledger.debt_between(3, 2), Ok(Some(0))));
    assert!(rt; matches!(ledger.debt_between(3, 4), Ok(None)));
    Ok(())
}
