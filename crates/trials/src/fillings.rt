use credit::line::Line;
use credit::payment::Payment;
use credit::refusal::Refusal;
use filling::router::{Breadth, Scaling};
use routing::direct::Direct;
use routing::kept::Kept;
use routing::router::Router;
use std::test::*;

// A line without debt on which a may owe b so much.
fn line(a: u32, b: u32, most: i32) -> Line {
    Line {
        a,
        b,
        trust_a: 0,
        trust_b: most,
        debt: 0,
    }
}

fn payment(payer: u32, payee: u32, amount: i32) -> Payment {
    Payment {
        payer,
        payee,
        amount,
    }
}

#[test]
fn the_two_differ_in_the_plan(rt: HostRuntime) -> Result<(), Fail> {
    let lines = [line(1, 3, 1), line(1, 2, 64), line(2, 3, 64)];
    let mut plan = [0, 0, 0, 7];
    assert_eq!(rt;
        (Breadth {}).route(&lines, payment(1, 3, 64), &mut plan),
        Ok(())
    );
    assert!(rt; plan == [1, 63, 63, 7]);
    let mut plan = [0, 0, 0, 7];
    assert_eq!(rt;
        (Scaling {}).route(&lines, payment(1, 3, 64), &mut plan),
        Ok(())
    );
    assert!(rt; plan == [0, 64, 64, 7]);
    Ok(())
}

#[test]
fn several_chains_and_pairs_twice(rt: HostRuntime) -> Result<(), Fail> {
    let lines = [line(2, 3, 5), line(1, 3, 4), line(1, 2, 9), line(1, 3, 2)];
    let mut plan = [1, 0, 1, 0];
    assert_eq!(rt;
        (Breadth {}).route(&lines, payment(1, 3, 10), &mut plan),
        Ok(())
    );
    assert!(rt; plan == [5, 4, 5, 2]);
    assert!(rt; wants_room((Scaling {}).route(&lines, payment(1, 3, 1), &mut plan)));
    assert!(rt; plan == [5, 4, 5, 2]);
    assert_eq!(rt;
        (Scaling {}).route(&[line(1, 64, 5)], payment(1, 3, 1), &mut plan),
        Err(Refusal::BadPlanSheet)
    );
    Ok(())
}

fn wants_room(answer: Result<(), Refusal>) -> bool {
    matches!(answer, Err(Refusal::WantOfRoom { .. }))
}

// What a router answers on two chains of 10 from 1 to 4, and whether it left the plan where it refused.
fn over_two_chains<R: Router>(router: &mut R, amount: i32) -> (Result<(), Refusal>, bool) {
    let lines = [
        line(1, 2, 10),
        line(2, 4, 10),
        line(1, 3, 10),
        line(3, 4, 10),
    ];
    let mut plan = [0, 0, 0, 0];
    let answer = router.route(&lines, payment(1, 4, amount), &mut plan);
    (answer, plan == [0, 0, 0, 0])
}

#[test]
fn no_single_chain_suffices_under_all_four(rt: HostRuntime) -> Result<(), Fail> {
    assert_eq!(rt; over_two_chains(&mut Breadth {}, 15).0, Ok(()));
    assert_eq!(rt; over_two_chains(&mut Scaling {}, 20).0, Ok(()));
    assert_eq!(rt; over_two_chains(&mut Direct::new(Breadth {}), 15).0, Ok(()));
    assert_eq!(rt; over_two_chains(&mut Kept::new(Scaling {}), 20).0, Ok(()));
    let (answer, left) = over_two_chains(&mut Kept::new(Direct::new(Breadth {})), 21);
    assert!(rt; wants_room(answer));
    assert!(rt; left);
    Ok(())
}

#[test]
fn layers_over_breadth(rt: HostRuntime) -> Result<(), Fail> {
    let lines = [line(1, 2, 30), line(1, 3, 1)];
    let mut plan = [0, 0];
    let refused = Direct::new(Breadth {}).route(&lines, payment(1, 3, 40), &mut plan);
    assert!(rt; plan == [0, 0]);
    match refused {
        Err(Refusal::WantOfRoom { group, room }) => {
            assert!(rt; group.holds(1) && !group.holds(3));
            assert_eq!(rt; room, 1);
        }
        _ => return Err(Fail::new("a refusal for want of room")),
    }
    let lines = [line(1, 2, 30), line(1, 3, 1), line(2, 3, 5)];
    let mut direct = Direct::new(Breadth {});
    let mut plan = [0, 0, 0];
    assert_eq!(rt; direct.route(&lines, payment(1, 3, 1), &mut plan), Ok(()));
    assert!(rt; plan == [0, 1, 0]);
    let mut plan = [0, 0, 0];
    assert_eq!(rt; direct.route(&lines, payment(1, 3, 4), &mut plan), Ok(()));
    assert!(rt; plan == [3, 1, 3]);
    let mut kept = Kept::new(Breadth {});
    let mut plan = [0];
    assert!(rt; wants_room(kept.route(&[line(1, 2, 10)], payment(1, 2, 11), &mut plan)));
    assert_eq!(rt;
        kept.route(&[line(1, 2, 11)], payment(1, 2, 11), &mut plan),
        Ok(())
    );
    assert!(rt; plan == [11]);
    Ok(())
}
