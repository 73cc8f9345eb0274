// A line of a sheet as a sentence.
ghost use Rattle.std.specs.Prelude.{◌≡◌, Some};
ghost use Rattle.explain.specs.Tells.{outcome_of, sentence_of};

use crate::asks::Lead;
use crate::denial::Denial;
use crate::standing::{Balance, Owing};
use batch::form::Form;
use batch::sheet::SheetLine;
use std::fmt::{self, Display};

// A line of a sheet, with the form of the batch line that it answers, where that is known.
#[derive(Clone, Copy)]
pub struct Sentence {
    pub form: Option<Form>,
    pub line: SheetLine,
}

// What became of a form that was carried out.
fn outcome(form: Option<Form>) -> &'static str
    ensures { result.now ≡ outcome_of form }
{
    match form {
        Some(Form::Try(_)) => "it can",
        _ => "done",
    }
}

impl Display for Sentence {
    ghost output = { λ s. Some (sentence_of s.form s.line) };

    fn fmt<W: fmt::Write>(&self, f: &mut fmt::Formatter<W>) -> fmt::Result {
        let form = self.form;
        match self.line {
            SheetLine::Done { line } => {
                let lead = Lead { line, form };
                let outcome = outcome(form);
                write!(f, "{lead}{outcome}.")
            }
            SheetLine::Kept { line } => write!(f, "Line {line}: the group of payments is kept."),
            SheetLine::Undone { line } => write!(
                f,
                "Line {line}: the group of payments is undone."
            ),
            SheetLine::Refused { line, refusal } => Denial {
                line,
                form,
                refusal,
            }
            .fmt(f),
            SheetLine::Net { member, net } => Balance { member, net }.fmt(f),
            SheetLine::Debt { a, b, debt } => Owing { a, b, debt }.fmt(f),
            SheetLine::End => write!(f, "End of the sheet."),
        }
    }
}
