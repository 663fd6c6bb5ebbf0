// The words of a line, by their places in it or by their letters in a row. The remainders only say that a number fits.
ghost use Rattle.std.specs.Prelude.{◌≡◌, ℕ, ◌%◌, ◌^◌};
ghost use Rattle.words.specs.Line.{number_at, bits_at, signed_at, signed16_at, word_of};

use crate::number::read;
use crate::problem::value;
use text::{find, piece};

// A number of WIDTH bits; `value` is its value.
pub trait Bits: Copy {
    ghost WIDTH: { ℕ };

    ghost value: { Self → ℕ };

    fn low(x: u64) -> Self
        ensures { value result ≡ x % 2 ^ WIDTH };
}

// An impl for each width, written out, as of `Number`.
impl Bits for u8 {
    ghost WIDTH = { 8 };

    ghost value = { λ x. x };

    fn low(x: u64) -> u8 {
        (x % 256) as u8
    }
}

impl Bits for u16 {
    ghost WIDTH = { 16 };

    ghost value = { λ x. x };

    fn low(x: u64) -> u16 {
        (x % 65536) as u16
    }
}

impl Bits for u32 {
    ghost WIDTH = { 32 };

    ghost value = { λ x. x };

    fn low(x: u64) -> u32 {
        (x % 4294967296) as u32
    }
}

#[tactic(auto, unfolding(crate::specs::Line::number_at))]
pub fn u64_at(line: &[u8], word: usize) -> u64
    ensures { result ≡ number_at line.now word }
{
    value(read(piece(line, word, b' '), b'q'))
}

// The same of fewer bits.
pub fn bits_at<N: Bits>(line: &[u8], word: usize) -> N
    ensures { N.value result ≡ bits_at N.WIDTH line.now word }
{
    N::low(u64_at(line, word))
}

// Two functions of one line each for signed numbers: a trait with a letter and a sign is longer.
#[tactic(auto, unfolding(crate::specs::Line::signed_at))]
pub fn i8_at(line: &[u8], word: usize) -> i8
    ensures { result ≡ signed_at line.now word }
{
    u8::low(value(read(piece(line, word, b' '), b's'))).cast_signed()
}

#[tactic(auto, unfolding(crate::specs::Line::signed16_at))]
pub fn i16_at(line: &[u8], word: usize) -> i16
    ensures { result ≡ signed16_at line.now word }
{
    u16::low(value(read(piece(line, word, b' '), b't'))).cast_signed()
}

// The word whose letter stands in the second word of a row, or none.
#[tactic(auto, unfolding(crate::specs::Line::word_of))]
pub fn word_of<'a>(line: &'a [u8], row: &[u8], letter: u8) -> &'a [u8]
    ensures { result.now ≡ word_of line.now row.now letter }
{
    piece(line, find(piece(row, 1, b' '), 0, letter, true) + 1, b' ')
}
