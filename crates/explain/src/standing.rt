// Who stands where: net positions and debts in words.
ghost use Rattle.std.specs.Prelude.{Some};
ghost use Rattle.explain.specs.Standings.{balance_of, owing_of};

use crate::minutes::Minutes;
use std::cmp::Ordering;
use std::fmt;

// A member's net position: positive where it is owed, negative where it owes.
#[derive(Clone, Copy)]
pub struct Balance {
    pub member: u32,
    pub net: i32,
}

impl fmt::Display for Balance {
    ghost output = { λ b. Some (balance_of b.member b.net) };

    fn fmt<W: fmt::Write>(&self, f: &mut fmt::Formatter<W>) -> fmt::Result {
        let member = self.member;
        let size = Minutes(i64::from(self.net.unsigned_abs()));
        match self.net.cmp(&0) {
            Ordering::Equal => write!(f, "Member {member} is even."),
            Ordering::Greater => write!(f, "Member {member} is owed {size} on balance."),
            Ordering::Less => write!(f, "Member {member} owes {size} on balance."),
        }
    }
}

// What b owes a.
#[derive(Clone, Copy)]
pub struct Owing {
    pub a: u32,
    pub b: u32,
    pub debt: i32,
}

impl fmt::Display for Owing {
    ghost output = { λ o. Some (owing_of o.a o.b o.debt) };

    fn fmt<W: fmt::Write>(&self, f: &mut fmt::Formatter<W>) -> fmt::Result {
        let a = self.a;
        let b = self.b;
        let size = Minutes(i64::from(self.debt.unsigned_abs()));
        match self.debt.cmp(&0) {
            Ordering::Equal => write!(f, "Members {a} and {b} owe each other nothing."),
            Ordering::Greater => write!(f, "Member {b} owes member {a} {size}."),
            Ordering::Less => write!(f, "Member {a} owes member {b} {size}."),
        }
    }
}
