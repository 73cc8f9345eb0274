// The form of the batch line that a sheet line names.
ghost use Rattle.std.specs.Prelude.{◌≡◌};
ghost use Rattle.batch.specs.Reads.{steps_of};
ghost use Rattle.explain.specs.Tells.{form_at, form_for};

use batch::form::Form;
use batch::reader::Reader;
use batch::sheet::SheetLine;

// The form of a batch's line, by its number.
fn form_at(batch: &[u8], line: usize) -> Option<Form>
    ensures { result ≡ form_at line (steps_of batch.now) }
{
    Reader::new(batch)
        .find(|step| step.line == line)
        .and_then(|step| step.form.ok())
}

// The form of the batch line that a sheet line names, if it names one.
pub(crate) fn form_for(batch: &[u8], answer: SheetLine) -> Option<Form>
    ensures { result ≡ form_for (steps_of batch.now) answer }
{
    match answer {
        SheetLine::Done { line }
        | SheetLine::Kept { line }
        | SheetLine::Undone { line }
        | SheetLine::Refused { line, .. } => form_at(batch, line),
        SheetLine::Net { .. } | SheetLine::Debt { .. } | SheetLine::End => None,
    }
}
