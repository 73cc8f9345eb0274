// A batch as the list of calls that it asks of a ledger.
ghost use Rattle.std.specs.Prelude.{◌≡◌, ◌++◌, IfOk, OnOk};
ghost use Rattle.batch.specs.Reads.{steps_of};
ghost use Rattle.compare.specs.Asked.{calls_of};
ghost use Rattle.compare.specs.Scripts.{ScriptOf};

use batch::form::Form;
use batch::reader::{Reader, Step};
use calls::call::Call;
use credit::refusal::Refusal;
use std::alloc::{AllocError, Global};

// A line that is no form, and why.
#[derive(Clone, Copy)]
pub struct Stop {
    pub line: usize,
    pub refusal: Refusal,
}

// The calls up to the batch's end or to the first line that is no form.
#[derive(Drop)]
pub struct Script {
    pub calls: Vec<Call>,
    pub stop: Option<Stop>,
}

// Adds the calls that a form asks: one, two for a try, none for a choice of router.
fn add_calls(calls: &mut Vec<Call>, form: Form) -> Result<(), AllocError>
    ensures { OnOk result (calls.new.items ≡ calls.old.items ++ calls_of form) }
{
    let places = 256;
    match form {
        Form::Line {
            first,
            second,
            trust,
            back,
        } => calls.push(Call::Open {
            first,
            second,
            trust,
            back,
        })?,
        Form::Pay(payment) => calls.push(Call::Pay { places, payment })?,
        Form::Try(payment) => {
            calls.extend_from_slice(&[Call::Reserve { places, payment }, Call::Release(payment)])?
        }
        Form::Tidy => calls.push(Call::Tidy)?,
        Form::Route(_) => {}
        Form::All => calls.push(Call::Begin)?,
        Form::Close => calls.push(Call::End)?,
    }
    Ok(())
}

// Reads a batch up to its end or to the first line that is no form.
#[tactic(auto, using(crate::proofs::Scripting::read_on_lem))]
pub fn read(heap: Global, batch: &[u8]) -> Result<Script, AllocError>
    ensures { IfOk result (λ script. ScriptOf (steps_of batch.now) script) }
{
    let mut calls = Vec::new(heap);
    for Step { line, form } in Reader::new(batch) {
        match form {
            Ok(form) => add_calls(&mut calls, form)?,
            Err(refusal) => {
                let stop = Some(Stop { line, refusal });
                return Ok(Script { calls, stop });
            }
        }
    }
    Ok(Script { calls, stop: None })
}
