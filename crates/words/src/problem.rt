// What can be wrong with a line, or with a word of it.
ghost use Rattle.std.specs.Prelude.{◌≡◌};
ghost use Rattle.words.specs.Numeral.{Value};
ghost use Rattle.words.specs.Wrong.{value_of};

use std::fmt;

#[derive(Clone, Copy, Debug, PartialEq, Eq)]
pub enum Problem {
    UnknownCall,
    Missing,
    LeftOver,
    NotANumber,
    OutOfRange,
    NotOctets,
    OddDigits,
    TooManyOctets,
    TooLong,
    NoMode,
}

impl fmt::Display for Problem {
    fn fmt<W: fmt::Write>(&self, f: &mut fmt::Formatter<W>) -> fmt::Result {
        f.write_str(match self {
            Problem::UnknownCall => "unknown call",
            Problem::Missing => "missing",
            Problem::LeftOver => "left over",
            Problem::NotANumber => "not a number",
            Problem::OutOfRange => "number out of range",
            Problem::NotOctets => "not octets",
            Problem::OddDigits => "odd number of hexadecimal digits",
            Problem::TooManyOctets => "more than 4096 octets",
            Problem::TooLong => "longer than 65536 octets",
            Problem::NoMode => "neither basic nor interleaved",
        })
    }
}

// What is wrong with a word, and what it reads as all the same: a number, or how many octets stand before what is wrong.
#[derive(Clone, Copy, Debug, PartialEq, Eq)]
pub struct Wrong {
    pub problem: Problem,
    pub value: u64,
}

// What a word reads as, wrong or not.
pub fn value(read: Result<u64, Wrong>) -> u64
    ensures { result ≡ (value_of read).value }
{
    match read {
        Ok(value) => value,
        Err(wrong) => wrong.value,
    }
}
