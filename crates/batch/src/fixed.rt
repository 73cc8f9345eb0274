// Fixed texts: the forms without numbers, the words of the others, and the closing bracket.
ghost use Rattle.std.specs.Prelude.{◌≡◌};
ghost use Rattle.std.specs.Option.{option_map};
ghost use Rattle.batch.specs.Grammar.{fixed_of, closed, after};

use crate::form::{Choice, Form};

// The form that a fixed text names.
pub(crate) fn fixed(line: &[u8]) -> Option<Form>
    ensures { result ≡ fixed_of line.now }
{
    match line {
        b"(tidy)" => Some(Form::Tidy),
        b"(route breadth)" => Some(Form::Route(Choice::Breadth)),
        b"(route scaling)" => Some(Form::Route(Choice::Scaling)),
        b"(route kept)" => Some(Form::Route(Choice::Kept)),
        b"(all" => Some(Form::All),
        b")" => Some(Form::Close),
        _ => None,
    }
}

// What stands before a last `)`.
pub(crate) fn unclosed(bytes: &[u8]) -> Option<&[u8]>
    ensures { option_map (λ x. x.now) result ≡ closed bytes.now }
{
    match bytes {
        [body @ .., b')'] => Some(body),
        _ => None,
    }
}

// What stands after the word, where the bytes begin with it.
#[tactic(auto, using(crate::proofs::Grammars::after_test))]
pub(crate) fn past<'a>(bytes: &'a [u8], word: &[u8]) -> Option<&'a [u8]>
    ensures { option_map (λ x. x.now) result ≡ after word.now bytes.now }
{
    bytes.strip_prefix(word)
}
