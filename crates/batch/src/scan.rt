// Scanning bytes: up to a separator, and for a number.
ghost use Rattle.std.specs.Prelude.{◌≡◌, ◌<◌, ◌≤◌, length, IfSome, ◌==◌};
ghost use Rattle.std.specs.List.{before_first, after_first};
ghost use Rattle.batch.specs.Numbers.{numeral_of, read_on};

// The bytes up to the first `stop`, and those after it.
pub(crate) fn cut_at(bytes: &[u8], stop: u8) -> (&[u8], &[u8])
    ensures front { result.0.now ≡ before_first (λ b. b == stop) bytes.now }
    ensures rest { result.1.now ≡ after_first (λ b. b == stop) bytes.now }
{
    match bytes.iter().position(|b| *b == stop) {
        Some(end) => (&bytes[..end], &bytes[end + 1..]),
        None => (bytes, &[]),
    }
}

// The number that at most 7 digits write.
#[tactic(auto, using(crate::proofs::Digits::few))]
fn digits(part: &[u8]) -> Option<u32>
    requires { length part.now ≤ 7 }
    ensures value { result ≡ read_on 0 part.now }
    ensures small { IfSome result (λ n. n < 10000000) }
{
    let mut n = 0;
    for b in part {
        n = n * 10 + char::from(*b).to_digit(10)?;
    }
    Some(n)
}

// The number that a part writes: 1 to 7 digits with no leading zero, or `0`.
pub(crate) fn number(part: &[u8]) -> Option<u32>
    ensures value { result ≡ numeral_of part.now }
    ensures small { IfSome result (λ n. n < 10000000) }
{
    match part {
        [] | [b'0', _, ..] => None,
        _ if part.len() > 7 => None,
        _ => digits(part),
    }
}
