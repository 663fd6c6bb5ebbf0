// Numbers as words: decimal, or hexadecimal after 0x; signed ones may begin with a minus sign.
ghost use Rattle.std.specs.Prelude.{◌≡◌, ◌≤◌};
ghost use Rattle.words.specs.Numeral.{digits_of, unsigned_of, signed_of, most_of, word_value};
ghost use Rattle.words.specs.Wrong.{radix_of, digit_below, more, value_of};

use crate::problem::{Problem, Wrong};

// A word that is no number reads as 0.
const NO_NUMBER: Wrong = Wrong {
    problem: Problem::NotANumber,
    value: 0,
};

// What digits count in.
#[derive(Clone, Copy)]
pub(crate) enum Base {
    Decimal,
    Hexadecimal,
}

impl Base {
    fn radix(self) -> u32
        ensures { result ≡ radix_of self }
    {
        match self {
            Base::Decimal => 10,
            Base::Hexadecimal => 16,
        }
    }
}

// A hexadecimal digit's value.
pub fn digit(octet: u8) -> Option<u32>
    ensures { result ≡ digit_below 16 octet }
{
    char::from(octet).to_digit(16)
}

fn digit_in(octet: u8, base: Base) -> Option<u32>
    ensures { result ≡ digit_below (radix_of base) octet }
{
    char::from(octet).to_digit(base.radix())
}

// A number with a digit more, if it is at most `most`.
fn with_digit(value: Option<u64>, base: Base, digit: u32, most: u64) -> Option<u64>
    ensures { result ≡ more (radix_of base) most digit value }
{
    value?
        .checked_mul(u64::from(base.radix()))?
        .checked_add(u64::from(digit))
        .filter(|n| *n <= most)
}

// The number that the digits of a text spell; one above `most` is out of range, and reads as `most`.
pub(crate) fn digits(text: &[u8], base: Base, most: u64) -> Result<u64, Wrong>
    ensures { value_of result ≡ digits_of (radix_of base) most text.now }
{
    if text.is_empty() {
        return Err(NO_NUMBER);
    }
    let mut value = Some(0);
    for x in text {
        let Some(d) = digit_in(*x, base) else {
            return Err(NO_NUMBER);
        };
        value = with_digit(value, base, d, most);
    }
    value.ok_or(Wrong {
        problem: Problem::OutOfRange,
        value: most,
    })
}

// A number of at most `most`.
fn unsigned(word: &[u8], most: u64) -> Result<u64, Wrong>
    ensures { value_of result ≡ unsigned_of most word.now }
{
    match word.strip_prefix(b"0x") {
        Some(hexadecimal) => digits(hexadecimal, Base::Hexadecimal, most),
        None => digits(word, Base::Decimal, most),
    }
}

// A number of at most `most`; a negative one may be one more in size, and is in two's complement of 64 bits.
fn signed(word: &[u8], most: u64) -> Result<u64, Wrong>
    requires { most ≤ 32767 }
    ensures { value_of result ≡ signed_of most word.now }
{
    let Some(size) = word.strip_prefix(b"-") else {
        return unsigned(word, most);
    };
    match unsigned(size, most + 1) {
        Ok(value) => Ok(value.wrapping_neg()),
        Err(wrong) => Err(Wrong {
            value: wrong.value.wrapping_neg(),
            ..wrong
        }),
    }
}

// The largest number that a word of this letter may be.
#[tactic(auto, unfolding(crate::specs::Numeral::most_of))]
fn most(letter: u8) -> u64
    ensures { result ≡ most_of letter }
{
    match letter {
        b'b' => 255,
        b'h' => 65535,
        b'w' => 4294967295,
        _ => u64::MAX,
    }
}

// The number that a word is, by its letter: b, h, w for 8, 16, 32 bits, s and t for 8 and 16 bits with a sign, any other for 64.
// A letter and no enum: `word_value` speaks of the letters of the rows' text.
#[tactic(auto, unfolding(crate::specs::Numeral::word_value))]
pub fn read(word: &[u8], letter: u8) -> Result<u64, Wrong>
    ensures { value_of result ≡ word_value letter word.now }
{
    match letter {
        b's' => signed(word, 127),
        b't' => signed(word, 32767),
        _ => unsigned(word, most(letter)),
    }
}
