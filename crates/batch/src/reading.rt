// Reading a line of a batch.
ghost use Rattle.std.specs.Prelude.{◌≡◌};
ghost use Rattle.batch.specs.Forms.{form_of, shape_of, worded_of, payment_of, filled};
ghost use Rattle.batch.specs.Parts.{parts_of};

use crate::fixed::{fixed, past};
use crate::form::Form;
use crate::parts::parts;
use credit::payment::Payment;
use credit::refusal::Refusal;

// The most bytes of a line, its line feed apart.
pub const LONGEST_LINE: usize = 40;

// The payment that the three parts of a form write. Each part is below 10,000,000, so `as` keeps it.
fn payment(rest: &[u8]) -> Result<Payment, Refusal>
    ensures { result ≡ filled payment_of (parts_of 3 rest.now) }
{
    let [payer, payee, amount] = parts::<3>(rest)?;
    Ok(Payment {
        payer,
        payee,
        amount: amount as i32,
    })
}

// A form that starts with a word and one space.
fn worded(line: &[u8]) -> Result<Form, Refusal>
    ensures { result ≡ worded_of line.now }
{
    if let Some(rest) = past(line, b"(line ") {
        let [first, second, trust, back] = parts::<4>(rest)?;
        return Ok(Form::Line {
            first,
            second,
            trust: trust as i32,
            back: back as i32,
        });
    }
    if let Some(rest) = past(line, b"(pay ") {
        return Ok(Form::Pay(payment(rest)?));
    }
    if let Some(rest) = past(line, b"(try ") {
        return Ok(Form::Try(payment(rest)?));
    }
    Err(Refusal::UnknownForm)
}

// The form of a line of any length.
#[tactic(auto, unfolding(crate::specs::Forms::shape_of))]
fn shape(line: &[u8]) -> Result<Form, Refusal>
    ensures { result ≡ shape_of line.now }
{
    match fixed(line) {
        Some(f) => Ok(f),
        None => worded(line),
    }
}

// The form that a line of a batch is, without its line feed. As a `TryFrom` it would be the same call under a longer name.
pub fn form(line: &[u8]) -> Result<Form, Refusal>
    ensures { result ≡ form_of line.now }
{
    if line.len() > LONGEST_LINE {
        return Err(Refusal::LineTooLong);
    }
    shape(line)
}
