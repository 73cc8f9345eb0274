ghost use Rattle.std.specs.Prelude.{Some};
ghost use Rattle.credit.specs.Sentences.{payment_words};

use std::fmt;

// A payment: who pays whom, and how many minutes. It may hold anything: what is no payment is refused where it is read.
#[derive(Clone, Copy, Debug, PartialEq, Eq)]
pub struct Payment {
    pub payer: u32,
    pub payee: u32,
    pub amount: i32,
}

// Payer, payee and amount, with a space between.
impl fmt::Display for Payment {
    ghost output = { λ pay. Some (payment_words pay) };

    fn fmt<W: fmt::Write>(&self, f: &mut fmt::Formatter<W>) -> fmt::Result {
        let Payment {
            payer,
            payee,
            amount,
        } = *self;
        write!(f, "{payer} {payee} {amount}")
    }
}
