// Two routers on the same calls: other debts, the same answers and net positions.
use calls::call::Call;
use credit::line::Line;
use credit::payment::Payment;
use filling::router::{Breadth, Scaling};
use replay::entry::Entry;
use replay::replay::close_twice;
use std::alloc::AllocError;
use std::test::*;

// Whether the answers are these, in words: a refusal by its number.
fn answered(rt: &HostRuntime, entries: &[Entry], words: &[&str]) -> Result<bool, AllocError> {
    for (entry, word) in entries.iter().zip(words) {
        let answer = format!(in rt.alloc(); "{}", entry.answer)?;
        if answer.as_str() != *word {
            return Ok(false);
        }
    }
    Ok(entries.len() == words.len())
}

// The net position of member 3 at last.
fn last_net(entries: &[Entry]) -> Option<i32> {
    entries.last().map(|entry| entry.nets[3])
}

// The debt of the first line.
fn first_debt(lines: &[Line]) -> Option<i32> {
    lines.first().map(|line| line.debt)
}

fn onward(amount: i32) -> Payment {
    Payment {
        payer: 1,
        payee: 3,
        amount,
    }
}

fn back(amount: i32) -> Payment {
    Payment {
        payer: 3,
        payee: 1,
        amount,
    }
}

fn open(first: u32, second: u32, back: i32) -> Call {
    Call::Open {
        first,
        second,
        trust: 0,
        back,
    }
}

fn pay(payment: Payment) -> Call {
    Call::Pay {
        places: 256,
        payment,
    }
}

fn reserve(payment: Payment) -> Call {
    Call::Reserve {
        places: 256,
        payment,
    }
}

fn book(places: usize, payment: Payment) -> Call {
    Call::Book { places, payment }
}

// Lines and a group of payments, a reservation from 1 to 3 and one back.
fn calls() -> [Call; 22] {
    [
        open(1, 3, 1),
        open(1, 2, 64),
        open(2, 3, 64),
        Call::Begin,
        pay(onward(64)),
        pay(onward(2)),
        Call::End,
        reserve(onward(65)),
        reserve(onward(1)),
        book(256, onward(5)),
        book(7, onward(65)),
        book(256, onward(65)),
        Call::Release(onward(65)),
        Call::Tidy,
        reserve(back(65)),
        Call::Release(back(65)),
        Call::Begin,
        pay(back(5)),
        Call::End,
        Call::Begin,
        Call::Abandon,
        Call::Abandon,
    ]
}

#[test]
fn routers_do_not_matter(rt: HostRuntime) -> Result<(), Fail> {
    let answers = [
        "done",
        "done",
        "done",
        "done",
        "done",
        "refused 16",
        "undone",
        "reserved",
        "refused 8",
        "refused 15",
        "refused 17",
        "done",
        "none to release",
        "done",
        "reserved",
    ];
    let all = calls();
    let first = all.get(..15).ok_or("fewer than fifteen calls")?;
    let two = close_twice(rt.alloc(), first, &mut Breadth {}, &mut Scaling {})?;
    assert!(rt; answered(&rt, &two.one.entries, &answers)?);
    assert!(rt; answered(&rt, &two.other.entries, &answers)?);
    assert_eq!(rt; last_net(&two.one.entries), Some(65));
    assert_eq!(rt; last_net(&two.other.entries), Some(65));
    Ok(())
}

#[test]
fn routers_do_not_matter_further(rt: HostRuntime) -> Result<(), Fail> {
    let answers = [
        "done",
        "done",
        "done",
        "done",
        "done",
        "refused 16",
        "undone",
        "reserved",
        "refused 8",
        "refused 15",
        "refused 17",
        "done",
        "none to release",
        "done",
        "reserved",
        "released",
        "done",
        "done",
        "kept",
        "done",
        "undone",
        "refused 14",
    ];
    let two = close_twice(rt.alloc(), &calls(), &mut Breadth {}, &mut Scaling {})?;
    assert!(rt; answered(&rt, &two.one.entries, &answers)?);
    assert!(rt; answered(&rt, &two.other.entries, &answers)?);
    assert_eq!(rt; last_net(&two.one.entries), Some(60));
    assert_eq!(rt; last_net(&two.other.entries), Some(60));
    // breadth takes back the debt of the line that joins the two, scaling goes the wider way
    assert_eq!(rt; first_debt(&two.one.lines), Some(0));
    assert_eq!(rt; first_debt(&two.other.lines), Some(-1));
    Ok(())
}
