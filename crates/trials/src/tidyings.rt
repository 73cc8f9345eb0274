use credit::line::Line;
use rings::tidy::tidy;
use std::test::*;

#[test]
fn one_ring(rt: HostRuntime) -> Result<(), Fail> {
    // 1 owes 2 seven, 2 owes 3 five, 3 owes 1 nine
    let mut lines = [
        Line {
            a: 1,
            b: 2,
            trust_a: 9,
            trust_b: 9,
            debt: -7,
        },
        Line {
            a: 2,
            b: 3,
            trust_a: 9,
            trust_b: 9,
            debt: -5,
        },
        Line {
            a: 1,
            b: 3,
            trust_a: 9,
            trust_b: 9,
            debt: 9,
        },
    ];
    tidy(&mut lines);
    assert_eq!(rt; lines[0].debt, -2);
    assert_eq!(rt; lines[1].debt, 0);
    assert_eq!(rt; lines[2].debt, 4);
    Ok(())
}

#[test]
fn two_rings_share_a_line(rt: HostRuntime) -> Result<(), Fail> {
    // 1 owes 2 ten; 2 owes 3 and 3 owes 1 four; 2 owes 4 and 4 owes 1 five
    let mut lines = [
        Line {
            a: 1,
            b: 2,
            trust_a: 9,
            trust_b: 10,
            debt: -10,
        },
        Line {
            a: 2,
            b: 3,
            trust_a: 9,
            trust_b: 9,
            debt: -4,
        },
        Line {
            a: 1,
            b: 3,
            trust_a: 9,
            trust_b: 9,
            debt: 4,
        },
        Line {
            a: 2,
            b: 4,
            trust_a: 9,
            trust_b: 9,
            debt: -5,
        },
        Line {
            a: 1,
            b: 4,
            trust_a: 9,
            trust_b: 9,
            debt: 5,
        },
    ];
    tidy(&mut lines);
    assert_eq!(rt; lines[0].debt, -1);
    assert_eq!(rt; lines[1].debt, 0);
    assert_eq!(rt; lines[2].debt, 0);
    assert_eq!(rt; lines[3].debt, 0);
    assert_eq!(rt; lines[4].debt, 0);
    Ok(())
}
