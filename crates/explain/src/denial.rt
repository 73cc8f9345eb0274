// Why a line of a batch is refused, in words.
ghost use Rattle.std.specs.Prelude.{◌≡◌, Some};
ghost use Rattle.explain.specs.Denials.{amount_of, lack_of, want_of, denial_of};

use crate::asks::Lead;
use crate::minutes::Minutes;
use crate::names::Names;
use batch::form::Form;
use credit::refusal::Refusal;
use members::group::Group;
use std::fmt;

// The amount that a form asks to pay.
fn amount(form: Option<Form>) -> Option<i32>
    ensures { result ≡ amount_of form }
{
    match form {
        Some(Form::Pay(payment) | Form::Try(payment)) => Some(payment.amount),
        _ => None,
    }
}

// By how much an amount passes a room, where there is one.
#[derive(Clone, Copy)]
pub struct Lack {
    pub amount: Option<i32>,
    pub room: i32,
}

impl fmt::Display for Lack {
    ghost output = { λ l. Some (lack_of l.amount l.room) };

    fn fmt<W: fmt::Write>(&self, f: &mut fmt::Formatter<W>) -> fmt::Result {
        match self.amount {
            None => Ok(()),
            Some(amount) => {
                let short = i64::from(amount) - i64::from(self.room);
                write!(f, ", {short} too few")
            }
        }
    }
}

// The members that together lack room, what room they have, and what is lacking.
#[derive(Clone, Copy)]
pub struct Want {
    pub group: Group,
    pub room: i32,
    pub amount: Option<i32>,
}

impl fmt::Display for Want {
    ghost output = { λ w. Some (want_of w.group w.room w.amount) };

    fn fmt<W: fmt::Write>(&self, f: &mut fmt::Formatter<W>) -> fmt::Result {
        let names = Names(self.group);
        let room = Minutes(i64::from(self.room));
        let lack = Lack {
            amount: self.amount,
            room: self.room,
        };
        write!(
            f,
            "want of room: {names} can pay others only {room} more{lack}"
        )
    }
}

// A refused line.
#[derive(Clone, Copy)]
pub struct Denial {
    pub line: usize,
    pub form: Option<Form>,
    pub refusal: Refusal,
}

impl fmt::Display for Denial {
    ghost output = { λ d. Some (denial_of d.line d.form d.refusal) };

    #[tactic(auto, using(crate::proofs::Denying::plain))]
    fn fmt<W: fmt::Write>(&self, f: &mut fmt::Formatter<W>) -> fmt::Result {
        let line = self.line;
        let form = self.form;
        let refusal = self.refusal;
        let number = refusal.number();
        let lead = Lead { line, form };
        match refusal {
            Refusal::WantOfRoom { group, room } => {
                let want = Want {
                    group,
                    room,
                    amount: amount(form),
                };
                write!(f, "{lead}refused ({number}), {want}.")
            }
            Refusal::LeftOpen => write!(
                f,
                "The group of payments that line {line} began was open at the end: it is undone."
            ),
            _ => write!(f, "{lead}refused ({number}), {refusal}."),
        }
    }
}
