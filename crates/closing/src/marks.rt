// The lines at which the open groups of payments begin.
ghost use Rattle.std.specs.Prelude.{◌≡◌, ◌<◌, true, length};
ghost use Rattle.batch.specs.declared.form.Form.TheVariants.{All};
ghost use Rattle.closing.specs.Marked.{marks_of};
ghost use Rattle.closing.specs.Carries.{accepted as is_accepted, marks_after};

use arrayvec::ArrayVec;
use batch::form::Form;
use calls::call::Answer;

// The line numbers of the `(all` of each open group, the inmost last. At most eight groups are open.
pub(crate) type Marks = ArrayVec<usize, 8>;

fn accepted(answer: Answer) -> bool
    ensures { result ≡ is_accepted answer }
{
    !matches!(answer, Answer::Refused(_))
}

// Keeps a mark for each open group once a form is carried out.
pub(crate) fn mark(marks: &mut Marks, form: Form, answer: Answer, line: usize)
    requires { form ≡ All → is_accepted answer ≡ true → length (marks_of marks.old) < 8 }
    ensures { marks_of marks.new ≡ marks_after form answer line (marks_of marks.old) }
{
    if !accepted(answer) {
        return;
    }
    match form {
        Form::All => marks.push(line),
        Form::Close => {
            let _ = marks.pop();
        }
        _ => {}
    }
}
