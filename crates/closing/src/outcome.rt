// For the run of a batch: what an answer is on the sheet, and whether it ends the batch.
ghost use Rattle.std.specs.Prelude.{◌≡◌, if◌then◌else◌};
ghost use Rattle.std.specs.declared.ops.ControlFlow.TheVariants.{Continue, Break};
ghost use Rattle.closing.specs.Carries.{printed as line_of, ends as ends_batch};

use batch::sheet::SheetLine;
use calls::call::Answer;
use credit::refusal::Refusal;
use std::ops::ControlFlow;

// What an answer is on the sheet.
fn printed(line: usize, answer: Answer) -> SheetLine
    ensures { result ≡ line_of line answer }
{
    match answer {
        Answer::Done | Answer::Reserved(_) | Answer::Released(_) => SheetLine::Done { line },
        Answer::Kept => SheetLine::Kept { line },
        Answer::Undone => SheetLine::Undone { line },
        Answer::Refused(refusal) => SheetLine::Refused { line, refusal },
    }
}

// Whether an answer ends the batch.
fn ends(answer: Answer) -> bool
    ensures { result ≡ ends_batch answer }
{
    matches!(
        answer,
        Answer::Refused(Refusal::TooManySavepoints | Refusal::NoSavepoint)
    )
}

// What the answer to a line of the batch gives: its line on the sheet, and whether the batch goes on.
pub(crate) fn told(line: usize, answer: Answer) -> ControlFlow<SheetLine, SheetLine>
    ensures { result ≡ (if ends_batch answer then Break (line_of line answer) else Continue (line_of line answer)) }
{
    let line = printed(line, answer);
    if ends(answer) {
        ControlFlow::Break(line)
    } else {
        ControlFlow::Continue(line)
    }
}
