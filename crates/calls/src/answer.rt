// What the ledger's calls return as plain answers.
ghost use Rattle.std.specs.Prelude.{◌≡◌};
ghost use Rattle.calls.specs.Answers.{done_or, closed_or};

use crate::call::{Answer, Closing};
use credit::refusal::Refusal;

// The answer of a call that answers nothing more where it is accepted.
impl From<Result<(), Refusal>> for Answer {
    ghost from_gives = { λ res answer. answer ≡ done_or res };

    fn from(res: Result<(), Refusal>) -> Answer {
        match res {
            Ok(()) => Answer::Done,
            Err(refusal) => Answer::Refused(refusal),
        }
    }
}

// The answer of a call that closes a group of payments.
impl From<Result<Closing, Refusal>> for Answer {
    ghost from_gives = { λ res answer. answer ≡ closed_or res };

    fn from(res: Result<Closing, Refusal>) -> Answer {
        match res {
            Ok(Closing::Kept) => Answer::Kept,
            Ok(Closing::Undone) => Answer::Undone,
            Err(refusal) => Answer::Refused(refusal),
        }
    }
}
