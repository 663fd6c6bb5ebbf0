// Why a call is refused: the refusals of N-1 to N-24, with the numbers that document 01 gives them.
#![tactic(auto)]

mod refused_by;

ghost use Rattle.std.specs.Prelude.{◌≡◌};
ghost use Rattle.refusal.specs.Refusal.{refusal_number, outcome_by};

pub use crate::refused_by::RefusedBy;
use std::fmt;

#[derive(Clone, Copy, Debug, PartialEq, Eq)]
pub enum Refusal {
    BadLength,
    BadVersion,
    BadMode,
    BadField,
    BadPadding,
    BadArgument,
    BadState,
    BadCookie,
    NotAsked,
    NotInterleaved,
    NoRoom,
    NotStored,
    AfterMac,
}

impl Refusal {
    pub fn number(self) -> u8
        ensures { result ≡ refusal_number self }
    {
        match self {
            Refusal::BadLength => 1,
            Refusal::BadVersion => 2,
            Refusal::BadMode => 3,
            Refusal::BadField => 4,
            Refusal::BadPadding => 5,
            Refusal::BadArgument => 6,
            Refusal::BadState => 7,
            Refusal::BadCookie => 8,
            Refusal::NotAsked => 9,
            Refusal::NotInterleaved => 10,
            Refusal::NoRoom => 11,
            Refusal::NotStored => 12,
            Refusal::AfterMac => 13,
        }
    }
}

impl fmt::Display for Refusal {
    fn fmt<W: fmt::Write>(&self, f: &mut fmt::Formatter<W>) -> fmt::Result {
        let number = self.number();
        write!(f, "{number}")
    }
}

// N-27: the number of a refusal, or 0.
pub fn outcome_number<R: RefusedBy>(result_of: Result<(), R>) -> u8
    ensures { result ≡ outcome_by R.as_number result_of }
{
    match result_of {
        Ok(()) => 0,
        Err(refusal) => refusal.number(),
    }
}
