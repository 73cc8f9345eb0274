// A whole sheet as sentences.
ghost use Rattle.std.specs.Prelude.{◌≡◌, IfOk, string_bytes};
ghost use Rattle.batch.specs.Reads.{steps_of};
ghost use Rattle.explain.specs.Tells.{explained};

use crate::forms::form_for;
use crate::sentence::Sentence;
use batch::sheet::SheetLine;
use std::alloc::{AllocError, Global};

// A sheet as sentences, one a line, in order, each with the form of the batch line that it names.
pub fn explain(batch: &[u8], sheet: &[SheetLine], heap: Global) -> Result<String, AllocError>
    ensures { IfOk result (λ text. string_bytes text ≡ explained (steps_of batch.now) sheet.now) }
{
    let mut text = String::new(heap);
    for line in sheet {
        let form = form_for(batch, *line);
        let sentence = Sentence { form, line: *line };
        writeln!(text, "{sentence}")?;
    }
    Ok(text)
}
