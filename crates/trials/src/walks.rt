use members::group::Group;
use std::test::*;

#[test]
fn walks_rising(rt: HostRuntime) -> Result<(), Fail> {
    let group = Group::empty().with(63).with(3).with(64).with(7).without(7);
    assert_eq!(rt; group.count(), 2);
    let mut walk = group.walk();
    assert_eq!(rt; walk.next(), Some(3));
    assert_eq!(rt; walk.next(), Some(63));
    assert_eq!(rt; walk.next(), None);
    Ok(())
}
