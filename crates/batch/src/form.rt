// A form of a batch: one line of it, read.
use credit::payment::Payment;

#[derive(Clone, Copy, Debug, PartialEq, Eq)]
pub enum Form {
    // the first trusts the second for `trust`, and the second the first for `back`
    Line {
        first: u32,
        second: u32,
        trust: i32,
        back: i32,
    },
    Pay(Payment),
    // whether the payment could be made
    Try(Payment),
    Tidy,
    // the router that serves the lines after it
    Route(Choice),
    // a group of payments begins, and ends
    All,
    Close,
}

// The routers that a batch picks from: direct first over breadth, scaling, and kept over scaling.
#[derive(Clone, Copy, Debug, PartialEq, Eq)]
pub enum Choice {
    Breadth,
    Scaling,
    Kept,
}
