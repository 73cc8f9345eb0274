ghost use Rattle.std.specs.Prelude.{◌≡◌, Some};
ghost use Rattle.credit.specs.Refusals.{number_of};
ghost use Rattle.credit.specs.Sentences.{sentence};

use members::group::Group;
use std::error::Error;
use std::fmt;

// Why a call is refused. Each case has its number in the table of refusals.
#[derive(Clone, Copy, Debug, PartialEq, Eq)]
pub enum Refusal {
    LineTooLong,
    UnknownForm,
    WrongParts,
    NotANumber,
    NoSuchMember,
    SameMember,
    OutOfRange,
    ReservationStands,
    Spoiled,
    PairHasLine,
    TooManyLines,
    SavepointOpen,
    TooManySavepoints,
    NoSavepoint,
    NoSuchReservation,
    // a group with the payer inside and the payee outside, and its room, which is less than the amount
    WantOfRoom { group: Group, room: i32 },
    BadPlanSheet,
    LeftOpen,
    BufferTooShort,
    BatchTooLong,
}

impl Refusal {
    // The refusal's number in the table.
    pub fn number(&self) -> u32
        ensures { result ≡ number_of self.now }
    {
        match self {
            Refusal::LineTooLong => 1,
            Refusal::UnknownForm => 2,
            Refusal::WrongParts => 3,
            Refusal::NotANumber => 4,
            Refusal::NoSuchMember => 5,
            Refusal::SameMember => 6,
            Refusal::OutOfRange => 7,
            Refusal::ReservationStands => 8,
            Refusal::Spoiled => 9,
            Refusal::PairHasLine => 10,
            Refusal::TooManyLines => 11,
            Refusal::SavepointOpen => 12,
            Refusal::TooManySavepoints => 13,
            Refusal::NoSavepoint => 14,
            Refusal::NoSuchReservation => 15,
            Refusal::WantOfRoom { .. } => 16,
            Refusal::BadPlanSheet => 17,
            Refusal::LeftOpen => 18,
            Refusal::BufferTooShort => 19,
            Refusal::BatchTooLong => 20,
        }
    }
}

// Why, in plain words; and the room of the group that was named, where room was wanting.
impl fmt::Display for Refusal {
    ghost output = { λ e. Some (sentence e) };

    fn fmt<W: fmt::Write>(&self, f: &mut fmt::Formatter<W>) -> fmt::Result {
        match self {
            Refusal::LineTooLong => write!(f, "a line has more than 40 bytes"),
            Refusal::UnknownForm => write!(f, "not one of the forms"),
            Refusal::WrongParts => write!(
                f,
                "a closing bracket is missing or the count of parts is wrong"
            ),
            Refusal::NotANumber => write!(f, "a part is not a number"),
            Refusal::NoSuchMember => write!(f, "a member is not 0 to 63"),
            Refusal::SameMember => write!(f, "both members are the same"),
            Refusal::OutOfRange => write!(f, "an amount or a trust is out of range"),
            Refusal::ReservationStands => write!(f, "a reservation stands"),
            Refusal::Spoiled => write!(f, "the inmost group of payments is spoiled"),
            Refusal::PairHasLine => write!(f, "the pair has a line"),
            Refusal::TooManyLines => write!(f, "there are 256 lines"),
            Refusal::SavepointOpen => write!(f, "a group of payments is open"),
            Refusal::TooManySavepoints => write!(f, "eight groups of payments are open"),
            Refusal::NoSavepoint => write!(f, "no group of payments is open"),
            Refusal::NoSuchReservation => write!(f, "no reservation with these numbers stands"),
            Refusal::WantOfRoom { room, .. } => write!(
                f,
                "want of room: a group with the payer inside and the payee outside has room {room}"
            ),
            Refusal::BadPlanSheet => write!(f, "the lines and the plan sheet do not fit together"),
            Refusal::LeftOpen => write!(f, "a group of payments was left open"),
            Refusal::BufferTooShort => write!(f, "the buffer is too short for the line"),
            Refusal::BatchTooLong => write!(f, "a batch has more than 32,768 bytes"),
        }
    }
}

impl Error for Refusal {}
