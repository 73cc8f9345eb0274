// A cursor over the bytes of a batch, which hands out one form a step.
ghost use Rattle.std.specs.Prelude.{◌+◌, ◌^◌, ◌<◌, length};

use crate::form::Form;
use credit::refusal::Refusal;

// `line` lines of the batch are read, and `rest` is not.
#[derive(Drop)]
pub struct Reader<'a> {
    rest: &'a [u8],
    line: usize,
    ghost counted: { line + length rest.now < 2 ^ 64 },
}

// A form, or why the line is none, with its line number from 1.
#[derive(Clone, Copy)]
pub struct Step {
    pub line: usize,
    pub form: Result<Form, Refusal>,
}

pub mod steps;
