// What a line of a batch asks, in words.
ghost use Rattle.std.specs.Prelude.{◌≡◌, Some};
ghost use Rattle.explain.specs.Asks.{asks_of, lead_of, paid_of, router_of};

use crate::minutes::Minutes;
use batch::form::{Choice, Form};
use credit::payment::Payment;
use std::fmt;

#[derive(Clone, Copy)]
pub struct Asks(pub Form);

// A router by its name in the format.
fn router(choice: Choice) -> &'static str
    ensures { result.now ≡ router_of choice }
{
    match choice {
        Choice::Breadth => "breadth",
        Choice::Scaling => "scaling",
        Choice::Kept => "kept",
    }
}

// Who is paid, and how much.
#[derive(Clone, Copy)]
struct Paid(Payment);

impl fmt::Display for Paid {
    ghost output = { λ p. Some (paid_of p.0) };

    fn fmt<W: fmt::Write>(&self, f: &mut fmt::Formatter<W>) -> fmt::Result {
        let payee = self.0.payee;
        let amount = Minutes(i64::from(self.0.amount));
        write!(f, "member {payee} {amount}")
    }
}

impl fmt::Display for Asks {
    ghost output = { λ a. Some (asks_of a.0) };

    fn fmt<W: fmt::Write>(&self, f: &mut fmt::Formatter<W>) -> fmt::Result {
        match self.0 {
            Form::Line {
                first,
                second,
                trust,
                back,
            } => {
                let trust = Minutes(i64::from(trust));
                let back = Minutes(i64::from(back));
                write!(
                    f,
                    "member {first} trusts member {second} for {trust} and is trusted for {back}"
                )
            }
            Form::Pay(payment) => {
                let payer = payment.payer;
                let paid = Paid(payment);
                write!(f, "member {payer} pays {paid}")
            }
            Form::Try(payment) => {
                let payer = payment.payer;
                let paid = Paid(payment);
                write!(f, "member {payer} tries to pay {paid}")
            }
            Form::Tidy => write!(f, "rings of debt are cancelled"),
            Form::Route(choice) => {
                let router = router(choice);
                write!(f, "payments are routed by {router} from here on")
            }
            Form::All => write!(f, "a group of payments begins"),
            Form::Close => write!(f, "the group of payments ends"),
        }
    }
}

// The line that a sentence is about, and what it asks where it is a form. Line 0 is the whole batch: that is its number on a sheet.
#[derive(Clone, Copy)]
pub struct Lead {
    pub line: usize,
    pub form: Option<Form>,
}

impl fmt::Display for Lead {
    ghost output = { λ l. Some (lead_of l.line l.form) };

    fn fmt<W: fmt::Write>(&self, f: &mut fmt::Formatter<W>) -> fmt::Result {
        let line = self.line;
        if line == 0 {
            return write!(f, "The whole batch: ");
        }
        match self.form {
            None => write!(f, "Line {line}: "),
            Some(form) => {
                let asks = Asks(form);
                write!(f, "Line {line}: {asks}: ")
            }
        }
    }
}
