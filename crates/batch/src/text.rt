// The whole text of a sheet.
ghost use Rattle.std.specs.Prelude.{◌≡◌, IfOk};
ghost use Rattle.batch.specs.Sheets.{sheet_text};

use crate::sheet::SheetLine;
use std::alloc::{AllocError, Global};

// The lines' texts one after another, each with its line feed.
pub fn sheet_text(sheet: &[SheetLine], heap: Global) -> Result<Vec<u8>, AllocError>
    ensures { IfOk result (λ v. v.items ≡ sheet_text sheet.now) }
{
    let mut text = String::new(heap);
    for line in sheet {
        write!(text, "{line}")?;
    }
    Ok(text.into_bytes())
}
