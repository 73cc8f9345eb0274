// A number of minutes with its unit.
ghost use Rattle.std.specs.Prelude.{◌≡◌, Some};
ghost use Rattle.explain.specs.Words.{minutes_of, unit_of};

use std::fmt;

#[derive(Clone, Copy)]
pub struct Minutes(pub i64);

// One minute, several minutes.
fn unit(n: i64) -> &'static str
    ensures { result.now ≡ unit_of n }
{
    if n == 1 { "minute" } else { "minutes" }
}

impl fmt::Display for Minutes {
    ghost output = { λ m. Some (minutes_of m.0) };

    fn fmt<W: fmt::Write>(&self, f: &mut fmt::Formatter<W>) -> fmt::Result {
        let n = self.0;
        let unit = unit(n);
        write!(f, "{n} {unit}")
    }
}
