// The parts of a form, between its word and the last bracket.
ghost use Rattle.std.specs.Prelude.{◌≡◌, ◌<◌, length, All, OnSome, IfOk};
ghost use Rattle.std.specs.Option.{option_map};
ghost use Rattle.batch.specs.Pieces.{cut};
ghost use Rattle.batch.specs.Parts.{numbers_of, parts_of};

use crate::fixed::unclosed;
use crate::scan::{cut_at, number};
use credit::refusal::Refusal;

// How many pieces the bytes are cut into at each `stop`.
fn count(bytes: &[u8], stop: u8) -> usize
    ensures { result ≡ length (cut stop bytes.now) }
{
    bytes.split(|b| *b == stop).count()
}

// Reads the numbers between the spaces, one into each place.
fn read(body: &[u8], places: &mut [u32]) -> Option<()>
    requires { length (cut 32 body.now) ≡ length places.old }
    ensures value { option_map (λ _. places.new) result ≡ numbers_of (cut 32 body.now) }
    ensures small { OnSome result (All (λ n. n < 10000000) places.new) }
{
    let mut rest = body;
    // cut by cut: over `split` and `enumerate` a line took half as long again to read
    for place in places.iter_mut() {
        let (part, more) = cut_at(rest, b' ');
        *place = number(part)?;
        rest = more;
    }
    Some(())
}

// The numbers of a form, after its word and one space.
pub(crate) fn parts<const N: usize>(rest: &[u8]) -> Result<[u32; N], Refusal>
    ensures value { result ≡ parts_of N rest.now }
    ensures small { IfOk result (All (λ n. n < 10000000)) }
{
    let body = unclosed(rest).ok_or(Refusal::WrongParts)?;
    if count(body, b' ') != N {
        return Err(Refusal::WrongParts);
    }
    let mut numbers = [0; N];
    read(body, &mut numbers).ok_or(Refusal::NotANumber)?;
    Ok(numbers)
}
