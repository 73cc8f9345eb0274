// The steps of a reader.
ghost use Rattle.std.specs.Prelude.{◌≡◌};
ghost use Rattle.std.specs.Iterator.{YieldsFirst, item_count};
ghost use Rattle.batch.specs.Reads.{steps_of, left as ahead};

use crate::reader::{Reader, Step};
use crate::reading::form;
use crate::scan::cut_at;

impl<'a> Reader<'a> {
    // A reader at the start of the batch.
    pub fn new(batch: &'a [u8]) -> Self
        ensures { ahead result ≡ steps_of batch.now }
    {
        Reader {
            rest: batch,
            line: 0,
        }
    }
}

impl<'a> Iterator for Reader<'a> {
    type Item = Step;

    ghost next_gives = { YieldsFirst ahead };

    ghost remaining = { item_count ahead };

    #[tactic(auto, using(crate::proofs::Lines::stepped))]
    fn next(&mut self) -> Option<Step> {
        if self.rest.is_empty() {
            return None;
        }
        let (line, rest) = cut_at(self.rest, b'\n');
        self.rest = rest;
        self.line += 1;
        Some(Step {
            line: self.line,
            form: form(line),
        })
    }
}
