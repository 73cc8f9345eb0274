// Calls and their answers in words.
ghost use Rattle.std.specs.Prelude.{Some};
ghost use Rattle.calls.specs.Said.{answer_words, call_words};

use crate::call::{Answer, Call};
use std::fmt;

impl fmt::Display for Call {
    ghost output = { λ c. Some (call_words c) };

    fn fmt<W: fmt::Write>(&self, f: &mut fmt::Formatter<W>) -> fmt::Result {
        match *self {
            Call::Open {
                first,
                second,
                trust,
                back,
            } => write!(f, "line {first} {second} {trust} {back}"),
            Call::Pay { payment, .. } => write!(f, "pay {payment}"),
            Call::Reserve { payment, .. } => write!(f, "reserve {payment}"),
            Call::Book { payment, .. } => write!(f, "book {payment}"),
            Call::Release(payment) => write!(f, "release {payment}"),
            Call::Begin => write!(f, "begin"),
            Call::End => write!(f, "end"),
            Call::Abandon => write!(f, "abandon"),
            Call::Tidy => write!(f, "tidy"),
        }
    }
}

// An answer, a refusal by its number.
impl fmt::Display for Answer {
    ghost output = { λ a. Some (answer_words a) };

    fn fmt<W: fmt::Write>(&self, f: &mut fmt::Formatter<W>) -> fmt::Result {
        match *self {
            Answer::Done => write!(f, "done"),
            Answer::Reserved(_) => write!(f, "reserved"),
            Answer::Released(true) => write!(f, "released"),
            Answer::Released(false) => write!(f, "none to release"),
            Answer::Kept => write!(f, "kept"),
            Answer::Undone => write!(f, "undone"),
            Answer::Refused(refusal) => write!(f, "refused {}", refusal.number()),
        }
    }
}
