// The calls on a ledger and their answers, as plain values.
use credit::payment::Payment;
use credit::refusal::Refusal;

// A call. A plan sheet counts by its number of places alone, a reservation by its payment.
#[derive(Clone, Copy, Debug, PartialEq, Eq)]
pub enum Call {
    Open {
        first: u32,
        second: u32,
        trust: i32,
        back: i32,
    },
    Pay {
        places: usize,
        payment: Payment,
    },
    Reserve {
        places: usize,
        payment: Payment,
    },
    Book {
        places: usize,
        payment: Payment,
    },
    Release(Payment),
    Begin,
    End,
    Abandon,
    Tidy,
}

// What a call answers.
#[derive(Clone, Copy, Debug, PartialEq, Eq)]
pub enum Answer {
    Done,
    Reserved(Payment),
    Released(bool),
    Kept,
    Undone,
    Refused(Refusal),
}

// How a group of payments was closed: its payments stay, or every debt is as at its begin.
#[derive(Clone, Copy, Debug, PartialEq, Eq)]
pub enum Closing {
    Kept,
    Undone,
}
