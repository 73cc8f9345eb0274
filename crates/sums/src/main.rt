// Worked sums on small networks, run through the library and printed.
#![tactic(auto)]

use calls::call::Answer;
use credit::payment::Payment;
use credit::refusal::Refusal;
use filling::router::{Breadth, Scaling};
use ledger::reservation::{Reservation, Unbooked};
use ledger::state::Ledger;
use members::group::Group;
use routing::direct::Direct;
use routing::router::Router;

// What a call answered.
fn say<A: Into<Answer>>(rt: &HostRuntime, what: &str, answer: A) -> anyhow::Result<()> {
    match answer.into() {
        Answer::Refused(refusal) => {
            println!(rt; "  {what}: refused with {}, {refusal}", refusal.number())?
        }
        answer => println!(rt; "  {what}: {answer}")?,
    }
    Ok(())
}

// A ledger whose calls are printed with their answers.
#[derive(Drop)]
struct Shown<'a> {
    rt: &'a HostRuntime,
    ledger: Ledger,
}

impl<'a> Shown<'a> {
    // A ledger without lines.
    fn new(rt: &'a HostRuntime) -> anyhow::Result<Shown<'a>> {
        let ledger = Ledger::new(rt.alloc())?;
        Ok(Shown { rt, ledger })
    }

    // A ledger with the lines 1 2 (50, 30) and 2 3 (20, 40).
    fn network(rt: &'a HostRuntime) -> anyhow::Result<Shown<'a>> {
        let mut shown = Shown::new(rt)?;
        shown.open(1, 2, 50, 30)?;
        shown.open(2, 3, 20, 40)?;
        Ok(shown)
    }

    fn open(&mut self, first: u32, second: u32, trust: i32, back: i32) -> anyhow::Result<()> {
        let what = format!(in self.rt.alloc(); "open {first} {second} {trust} {back}")?;
        let opened = self.ledger.open(first, second, trust, back);
        say(self.rt, &what, opened)
    }

    fn pay<R: Router>(
        &mut self,
        router: &mut R,
        payer: u32,
        payee: u32,
        amount: i32,
    ) -> anyhow::Result<()> {
        let payment = Payment {
            payer,
            payee,
            amount,
        };
        let what = format!(in self.rt.alloc(); "pay {payment}")?;
        let paid = self.ledger.pay(router, payment, &mut [0; 256]);
        say(self.rt, &what, paid)
    }

    // What the second member owes the first, if a line joins them.
    fn debt(&self, first: u32, second: u32) -> anyhow::Result<()> {
        let rt = self.rt;
        match self.ledger.debt_between(first, second) {
            Ok(Some(debt)) => println!(rt; "  {second} owes {first}: {debt}")?,
            Ok(None) => println!(rt; "  no line joins {first} and {second}")?,
            Err(refusal) => say(rt, "debt between", Answer::Refused(refusal))?,
        }
        Ok(())
    }
}

fn payments(rt: &HostRuntime) -> anyhow::Result<()> {
    println!(rt; "payments")?;
    let mut shown = Shown::network(rt)?;
    let router = &mut Direct::new(Breadth {});
    shown.pay(router, 1, 3, 31)?;
    shown.pay(router, 1, 3, 30)?;
    shown.pay(router, 3, 1, 51)?;
    let room = shown.ledger.group_room(Group::empty().with(3));
    println!(rt; "  the room of the group of 3 alone: {room}")?;
    shown.pay(router, 3, 1, 50)?;
    shown.pay(router, 64, 64, 5)?;
    shown.pay(router, 1, 1, 0)?;
    shown.pay(router, 1, 3, 1_000_000)?;
    shown.pay(router, 1, 3, 1_000_001)
}

// Reserves through scaling, from 1 to 3.
fn reserve(ledger: &mut Ledger, amount: i32) -> Result<Reservation, Refusal> {
    let payment = Payment {
        payer: 1,
        payee: 3,
        amount,
    };
    ledger.reserve(&mut Scaling {}, payment, &mut [0; 256])
}

// A booking that was refused, whose reservation came back and was released: why, and whether it stood.
#[derive(Clone, Copy)]
struct Unspent {
    refusal: Refusal,
    stood: bool,
}

type Spent = Result<(), Unspent>;

// Books through breadth; a reservation that is refused comes back and is released.
fn spend(ledger: &mut Ledger, reservation: Reservation) -> Spent {
    match ledger.book(&mut Breadth {}, reservation, &mut [0; 256]) {
        Ok(()) => Ok(()),
        Err(
            Unbooked {
                refusal,
                reservation,
            },
        ) => {
            let stood = ledger.release(reservation);
            Err(Unspent { refusal, stood })
        }
    }
}

fn say_spent(rt: &HostRuntime, what: &str, spent: Spent) -> anyhow::Result<()> {
    say(rt, what, spent.map_err(|unspent| unspent.refusal))?;
    if let Err(Unspent { stood, .. }) = spent {
        println!(rt; "    handed back and released; it stood: {stood}")?;
    }
    Ok(())
}

// A payment of 1 from 1 to 2 while 30 from 1 to 3 are reserved, and the booking after it.
fn while_reserved(ledger: &mut Ledger) -> Result<(Result<(), Refusal>, Spent), Refusal> {
    let reservation = reserve(ledger, 30)?;
    let payment = Payment {
        payer: 1,
        payee: 2,
        amount: 1,
    };
    let paid = ledger.pay(&mut Direct::new(Breadth {}), payment, &mut [0; 256]);
    Ok((paid, spend(ledger, reservation)))
}

// A reservation keeps its room until it is booked, through another router than the one that found it.
fn reservations(rt: &HostRuntime) -> anyhow::Result<()> {
    println!(rt; "a reservation and its booking")?;
    let mut shown = Shown::network(rt)?;
    match while_reserved(&mut shown.ledger) {
        Ok((paid, spent)) => {
            say(rt, "reserve 1 3 30", Answer::Done)?;
            say(rt, "pay 1 2 1", paid)?;
            say_spent(rt, "book 1 3 30", spent)?;
        }
        Err(refusal) => say(rt, "reserve 1 3 30", Answer::Refused(refusal))?,
    }
    shown.debt(1, 2)?;
    shown.debt(2, 3)?;
    shown.debt(1, 3)
}

// 20 from 1 to 3 are reserved here and another amount in another ledger, whose token is spent here first.
fn spend_foreign(
    here: &mut Ledger,
    there: &mut Ledger,
    amount: i32,
) -> Result<(Spent, Spent), Refusal> {
    let ours = reserve(here, 20)?;
    match reserve(there, amount) {
        Ok(foreign) => {
            let first = spend(here, foreign);
            Ok((first, spend(here, ours)))
        }
        Err(refusal) => {
            here.release(ours);
            Err(refusal)
        }
    }
}

// A reservation counts by its three numbers: one of another ledger is refused, unless its numbers are those that stand.
fn strangers(rt: &HostRuntime, amount: i32) -> anyhow::Result<()> {
    println!(rt; "20 reserved here, {amount} in another ledger")?;
    let mut here = Shown::network(rt)?;
    let mut there = Ledger::new(rt.alloc())?;
    say(rt, "open 1 3 0 50 there", there.open(1, 3, 0, 50))?;
    match spend_foreign(&mut here.ledger, &mut there, amount) {
        Ok((foreign, ours)) => {
            say_spent(rt, "book the token of the other ledger", foreign)?;
            say_spent(rt, "book our own", ours)
        }
        Err(refusal) => say(rt, "reserve", Answer::Refused(refusal)),
    }
}

// Groups of payments within groups, kept and spoiled.
fn groups(rt: &HostRuntime) -> anyhow::Result<()> {
    println!(rt; "groups of payments")?;
    let mut shown = Shown::network(rt)?;
    let router = &mut Direct::new(Breadth {});
    say(rt, "begin", shown.ledger.begin())?;
    shown.pay(router, 1, 3, 10)?;
    say(rt, "begin inside", shown.ledger.begin())?;
    shown.pay(router, 1, 3, 99)?;
    shown.pay(router, 1, 3, 1)?;
    say(rt, "end of the inner", shown.ledger.end())?;
    shown.pay(router, 1, 3, 5)?;
    say(rt, "end of the outer", shown.ledger.end())?;
    shown.debt(1, 2)?;
    say(rt, "begin", shown.ledger.begin())?;
    shown.pay(router, 3, 1, 15)?;
    say(rt, "abandon", shown.ledger.abandon())?;
    shown.debt(1, 2)?;
    say(rt, "end", shown.ledger.end())
}

// Nine begins, of which the last is refused.
fn begins(rt: &HostRuntime) -> anyhow::Result<()> {
    println!(rt; "nine begins")?;
    let mut shown = Shown::new(rt)?;
    for _ in 0..9u8 {
        say(rt, "begin", shown.ledger.begin())?;
    }
    Ok(())
}

// 1 owes 2 seven, 2 owes 3 five, 3 owes 1 nine.
fn rings(rt: &HostRuntime) -> anyhow::Result<()> {
    println!(rt; "a ring of debts, tidied")?;
    let mut shown = Shown::new(rt)?;
    shown.open(1, 2, 0, 10)?;
    shown.open(2, 3, 0, 10)?;
    shown.open(1, 3, 10, 0)?;
    let router = &mut Direct::new(Breadth {});
    shown.pay(router, 1, 2, 7)?;
    shown.pay(router, 2, 3, 5)?;
    shown.pay(router, 3, 1, 9)?;
    shown.ledger.tidy();
    shown.debt(2, 1)?;
    shown.debt(3, 2)?;
    shown.debt(1, 3)
}

// Lines on which two routers leave different debts.
fn forked<R: Router>(rt: &HostRuntime, name: &str, router: &mut R) -> anyhow::Result<()> {
    println!(rt; "64 from 1 to 3 under {name}")?;
    let mut shown = Shown::new(rt)?;
    shown.open(1, 3, 0, 1)?;
    shown.open(1, 2, 0, 64)?;
    shown.open(2, 3, 0, 64)?;
    shown.pay(router, 1, 3, 64)?;
    shown.debt(1, 3)
}

fn run(rt: &HostRuntime) -> anyhow::Result<()> {
    payments(rt)?;
    reservations(rt)?;
    strangers(rt, 10)?;
    strangers(rt, 20)?;
    groups(rt)?;
    begins(rt)?;
    rings(rt)?;
    forked(rt, "breadth", &mut Breadth {})?;
    forked(rt, "scaling", &mut Scaling {})
}

fn main(rt: HostRuntime) -> anyhow::Result<()> {
    run(&rt)
}
