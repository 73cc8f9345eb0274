use credit::line::Line;
use credit::net::net_position;
use credit::payment::Payment;
use credit::refusal::Refusal;
use credit::room::group_room;
use members::group::Group;
use std::test::*;

const LINE: Line = Line {
    a: 1,
    b: 2,
    trust_a: 50,
    trust_b: 30,
    debt: 20,
};

#[test]
fn bounds_of_a_line(rt: HostRuntime) -> Result<(), Fail> {
    assert!(rt; LINE.is_bounded());
    assert!(rt; !Line { debt: 51, ..LINE }.is_bounded());
    assert!(rt;
        !Line {
            trust_b: -1,
            ..LINE
        }
        .is_bounded()
    );
    assert!(rt; !Line { b: 64, ..LINE }.is_bounded());
    Ok(())
}

#[test]
fn rooms_and_nets(rt: HostRuntime) -> Result<(), Fail> {
    assert_eq!(rt; group_room(&[LINE], &[], Group { bits: 2 }), 50);
    assert_eq!(rt; group_room(&[LINE], &[40], Group { bits: 2 }), 10);
    assert_eq!(rt; net_position(&[LINE], 2), -20);
    Ok(())
}

#[test]
fn a_refusal_is_told(rt: HostRuntime) -> Result<(), Fail> {
    let refusal = Refusal::WantOfRoom {
        group: Group { bits: 2 },
        room: 7,
    };
    let text = refusal.to_string(rt.alloc())?;
    assert!(rt; text.as_str().ends_with(" has room 7"));
    Ok(())
}

#[test]
fn a_payment_is_told(rt: HostRuntime) -> Result<(), Fail> {
    let payment = Payment {
        payer: 7,
        payee: 12,
        amount: -30,
    };
    let text = payment.to_string(rt.alloc())?;
    assert_eq!(rt; text.as_str(), "7 12 -30");
    Ok(())
}
