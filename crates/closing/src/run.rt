// A batch under way: its forms carried out one after the other.
ghost use Rattle.std.specs.Prelude.{◌≡◌, ◌+◌, ◌≤◌, true, false, [], length, vec_len, vec_capacity};
ghost use Rattle.ledger.specs.States.{state_of};
ghost use Rattle.batch.specs.declared.form.Form.TheVariants.{Try as TryForm};
ghost use Rattle.batch.specs.Reads.{steps_of};
ghost use Rattle.closing.specs.Marked.{marks_of};
ghost use Rattle.closing.specs.Fairs.{Fair};
ghost use Rattle.closing.specs.Carries.{Serves, Picking, NextPick, Carries};
ghost use Rattle.closing.specs.Runs.{place_of, IsFair, Steps};
ghost use Rattle.closing.specs.Chosen.{PicksAt};
ghost use Rattle.closing.specs.Closes.{Ended};

use crate::marks::{Marks, mark};
use crate::outcome::told;
use crate::picking::Picks;
use batch::form::Form;
use batch::reader::{Reader, Step};
use batch::sheet::SheetLine;
use calls::call::Answer;
use credit::payment::Payment;
use credit::refusal::Refusal;
use ledger::state::Ledger;
use routing::router::Router;
use std::ops::ControlFlow;

// The ledger that a batch is carried out on, the routers that it picks from, the plan sheet that they fill, and the lines at
// which its open groups of payments begin. Each method keeps the reference to the ledger, so that a caller knows the ledger
// once the run is over.
#[derive(Drop)]
pub(crate) struct Run<'l, 'r, R: Router + Picks> {
    ledger: &'l mut Ledger,
    router: &'r mut R,
    plan: [i32; 256],
    marks: Marks,
}

impl<'l, 'r, R: Router + Picks> Run<'l, 'r, R> {
    // No line is carried out yet, and no group is open.
    pub(crate) fn new(ledger: &'l mut Ledger, router: &'r mut R) -> Self
        ensures same_reference { result.ledger.ghost_name ≡ ledger.entry.ghost_name }
        ensures value { result.ledger.now ≡ ledger.old }
        ensures marks { marks_of result.marks ≡ [] }
    {
        Run {
            ledger,
            router,
            plan: [0; 256],
            marks: Marks::new(),
        }
    }

    // Whether a payment would find room: a reservation, released at once.
    fn try_out(&mut self, payment: Payment) -> Answer
        ensures serves { Serves (state_of self.old.ledger.now) (TryForm payment) result (state_of self.new.ledger.now) }
        ensures same_reference { self.new.ledger.ghost_name ≡ self.old.ledger.ghost_name }
        ensures marks { self.new.marks ≡ self.old.marks }
    {
        let reserved = self
            .ledger
            .reserve(&mut *self.router, payment, &mut self.plan);
        match reserved {
            Ok(reservation) => {
                self.ledger.release(reservation);
                Answer::Reserved(payment)
            }
            Err(refusal) => Answer::Refused(refusal),
        }
    }

    // Carries out one form.
    fn carry(&mut self, form: Form) -> Answer
        ensures serves { Serves (state_of self.old.ledger.now) form result (state_of self.new.ledger.now) }
        ensures picks { Picking form (R.picked self.new.router.now) }
        ensures next { NextPick form (R.picked self.old.router.now) (R.picked self.new.router.now) }
        ensures same_reference { self.new.ledger.ghost_name ≡ self.old.ledger.ghost_name }
        ensures marks { self.new.marks ≡ self.old.marks }
    {
        match form {
            Form::Line {
                first,
                second,
                trust,
                back,
            } => Answer::from(self.ledger.open(first, second, trust, back)),
            Form::Pay(payment) => {
                Answer::from(self.ledger.pay(&mut *self.router, payment, &mut self.plan))
            }
            Form::Try(payment) => self.try_out(payment),
            Form::Tidy => {
                self.ledger.tidy();
                Answer::Done
            }
            Form::Route(choice) => {
                self.router.pick(choice);
                Answer::Done
            }
            Form::All => Answer::from(self.ledger.begin()),
            Form::Close => Answer::from(self.ledger.end()),
        }
    }

    // Carries out one line of the batch. Its line on the sheet comes as a `Break` where it ends the batch.
    fn carry_line(&mut self, step: Step) -> ControlFlow<SheetLine, SheetLine>
        requires { IsFair self.old }
        ensures stepped { Steps step (place_of self.old) result (place_of self.new) }
        ensures fair { IsFair self.new }
        ensures picks { PicksAt step.form (R.picked self.old.router.now) (R.picked self.new.router.now) }
        ensures same_reference { self.new.ledger.ghost_name ≡ self.old.ledger.ghost_name }
    {
        match step.form {
            Err(refusal) => ControlFlow::Break(SheetLine::Refused {
                line: step.line,
                refusal,
            }),
            Ok(form) => {
                let answer = self.carry(form);
                mark(&mut self.marks, form, answer, step.line);
                told(step.line, answer)
            }
        }
    }

    // Carries out the lines in order, until none is left or one ends the batch.
    pub(crate) fn carry_all(&mut self, batch: &[u8], sheet: &mut Vec<SheetLine>)
        requires fair { IsFair self.old }
        requires empty { sheet.old.items ≡ [] }
        requires places { length batch.now ≤ vec_capacity sheet.old }
        ensures carries { Carries (steps_of batch.now) (place_of self.old) sheet.new.items (place_of self.new) }
        ensures fair { IsFair self.new }
        ensures len { vec_len sheet.new ≤ length batch.now }
        ensures capacity { vec_capacity sheet.new ≡ vec_capacity sheet.old }
        ensures same_reference { self.new.ledger.ghost_name ≡ self.old.ledger.ghost_name }
    {
        for step in Reader::new(batch) {
            match self.carry_line(step) {
                ControlFlow::Continue(line) => sheet.push_reserved(line),
                ControlFlow::Break(line) => {
                    sheet.push_reserved(line);
                    return;
                }
            }
        }
    }

    // Abandons the open groups from the inmost out.
    pub(crate) fn abandon_all(&mut self, sheet: &mut Vec<SheetLine>)
        requires fair { IsFair self.old }
        requires places { vec_len sheet.old + 8 ≤ vec_capacity sheet.old }
        ensures ended { Ended (marks_of self.old.marks) (state_of self.old.ledger.now) sheet.old.items sheet.new.items (state_of self.new.ledger.now) }
        ensures len { vec_len sheet.new ≤ vec_len sheet.old + 8 }
        ensures capacity { vec_capacity sheet.new ≡ vec_capacity sheet.old }
        ensures fair { Fair (state_of self.new.ledger.now) [] }
        ensures same_reference { self.new.ledger.ghost_name ≡ self.old.ledger.ghost_name }
    {
        while let Some(line) = self.marks.pop() {
            let _ = self.ledger.abandon();
            sheet.push_reserved(SheetLine::Refused {
                line,
                refusal: Refusal::LeftOpen,
            });
        }
    }
}
