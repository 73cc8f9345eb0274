// The members of a group, named one after another.
ghost use Rattle.std.specs.Prelude.{Some};
ghost use Rattle.members.specs.Groups.{members_of};
ghost use Rattle.explain.specs.Words.{names_of};

use members::group::Group;
use std::fmt;

#[derive(Clone, Copy)]
pub struct Names(pub Group);

impl fmt::Display for Names {
    ghost output = { λ n. Some (names_of (members_of n.0.bits)) };

    fn fmt<W: fmt::Write>(&self, f: &mut fmt::Formatter<W>) -> fmt::Result {
        let mut walk = self.0.walk();
        let Some(first) = walk.next() else {
            return write!(f, "no member");
        };
        let Some(mut last) = walk.next() else {
            return write!(f, "member {first}");
        };
        write!(f, "members {first}")?;
        for member in walk {
            write!(f, ", {last}")?;
            last = member;
        }
        write!(f, " and {last} together")
    }
}
