// The editions of the draft, W204-1, and what a header can hold in each.
ghost use Rattle.std.specs.Prelude.{◌≡◌};
ghost use Rattle.refusal.specs.Refusal.{by_number};
ghost use Rattle.header.specs.Edition.{is_edition, edition_of, named_edition, most_timescale, over_limits, interleaved_bit, interleaved_flag};

use refusal::Refusal;

// 1, of December 2020, and 7, of March 2023.
#[derive(Clone, Copy, Debug, PartialEq, Eq)]
pub enum Edition {
    One,
    Seven,
}

pub fn is_edition(number: u64) -> bool
    ensures { result ≡ is_edition number }
{
    (number == 1) | (number == 7)
}

// The edition of a number that names one.
// Beside `TryFrom`, total: for a number that was tested.
pub fn edition_of(number: u64) -> Edition
    ensures { result ≡ edition_of number }
{
    if number == 1 {
        Edition::One
    } else {
        Edition::Seven
    }
}

// W204-1: the edition that a number names; refused where it names none.
impl TryFrom<u8> for Edition {
    type Error = Refusal;

    ghost try_from_gives = { λ number r. by_number r ≡ named_edition number };

    fn try_from(number: u8) -> Result<Self, Refusal> {
        match number {
            1 => Ok(Edition::One),
            7 => Ok(Edition::Seven),
            _ => Err(Refusal::BadArgument),
        }
    }
}

pub fn most_timescale(edition: Edition) -> u8
    ensures { result ≡ most_timescale edition }
{
    match edition {
        Edition::One => 15,
        Edition::Seven => 255,
    }
}

// W204-5: whether a header of the edition cannot hold one of these. Edition 7 holds all that their types do.
pub fn over_limits(edition: Edition, stratum: u8, timescale: u8, flags: u16) -> bool
    ensures { result ≡ over_limits edition stratum timescale flags }
{
    match edition {
        Edition::One => (15 < stratum) | (15 < timescale) | (255 < flags),
        Edition::Seven => false,
    }
}

// W204-4: the flag of a request or a response in interleaved mode.
pub fn interleaved_bit(edition: Edition) -> u16
    ensures { result ≡ interleaved_bit edition }
{
    match edition {
        Edition::One => 4,
        Edition::Seven => 2,
    }
}

// H-8, W204-4.
// Not by `interleaved_bit`: `interleaved_flag` divides, and only by a constant that is a mask.
pub fn is_interleaved(edition: Edition, flags: u16) -> bool
    ensures { result ≡ interleaved_flag edition flags }
{
    match edition {
        Edition::One => flags / 4 % 2 == 1,
        Edition::Seven => flags / 2 % 2 == 1,
    }
}
