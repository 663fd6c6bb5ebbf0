// The structs of the C interface. C has no enums that hold values, so each case of a core answer becomes its numbers (G-11). Numbers that are
// no refusal's, no judgement's or no outcome's are taken too, and stand in the structs as they are.
ghost use Rattle.std.specs.Prelude.{◌≡◌, []};
ghost use Rattle.refusal.specs.Refusal.{result_by};
ghost use Rattle.measure.specs.Measure.{measured};
ghost use Rattle.filter_weight.specs.Weighing.{numbers};
ghost use Rattle.client_rules.specs.Call.{plain_answer};
ghost use Rattle.exchange.specs.Judging.{chunk_number};
ghost use Rattle.client.specs.Answers.{is_interleaved, polled_by, published_by, measured_numbers, received_by, verdict_by, verdict_answer_of};
ghost use Rattle.responder_rules.specs.Answer.{outcome};
ghost use Rattle.c_structs.specs.Numbers.{written_numbers, received_numbers, accepted_numbers, accepted_by, verdict_numbers, outcome_numbers, weight_numbers, measurement_numbers, judged_measurement};

use client::{Measured, Mode};
use exchange::judging::Unusable;
use refusal::RefusedBy;

// How many octets were written; 0 in a refusal (N-27).
#[repr(C)]
#[derive(Clone, Copy)]
pub struct Written {
    pub refusal: u8,
    pub length: u16,
}

// A response's judgement (C-23 to C-26, W206-5), its chunk's outcome (C-20), and its measurement.
#[repr(C)]
#[derive(Clone, Copy, Default)]
pub struct Received {
    pub refusal: u8,
    pub judgement: u8,
    pub chunk: u8,
    pub offset: i64,
    pub delay: u64,
}

// B-7; 0 in a refusal.
#[repr(C)]
#[derive(Clone, Copy)]
pub struct Verdict {
    pub refusal: u8,
    pub verdict: u8,
}

#[repr(C)]
#[derive(Clone, Copy)]
pub struct Weight {
    pub refusal: u8,
    pub weight: u16,
}

// Judgement 0 with offset and delay, or 5 and zeros (W206-7).
#[repr(C)]
#[derive(Clone, Copy)]
pub struct Measurement {
    pub judgement: u8,
    pub offset: i64,
    pub delay: u64,
}

// An accepted response in numbers.
#[derive(Clone, Copy)]
pub struct Accepted {
    pub measurement: Measurement,
    pub chunk: u8,
}

// C's bool for the mode that a poll wants. No `From`: neither type is declared in this crate.
pub fn mode(interleaved: bool) -> Mode
    ensures { is_interleaved result ≡ interleaved }
{
    if interleaved {
        Mode::Interleaved
    } else {
        Mode::Basic
    }
}

// How many octets a poll or an answer has written.
impl<R: RefusedBy> From<Result<u16, R>> for Written {
    ghost from_gives = { λ said w. (written_numbers w [] ≡ polled_by R.as_number said [])
        × (outcome_numbers w [] [] ≡ outcome (result_by R.as_number said) [] []) };

    fn from(said: Result<u16, R>) -> Written {
        match said {
            Ok(length) => Written { refusal: 0, length },
            Err(refusal) => Written {
                refusal: refusal.number(),
                length: 0,
            },
        }
    }
}

// A published filter's 512 octets.
pub fn of_published<R: RefusedBy>(published: Result<(), R>) -> Written
    ensures { written_numbers result [] ≡ published_by R.as_number published [] }
{
    Written::from(published.map(|()| 512))
}

// N-27: a number and zeros.
pub fn of_refusal(refusal: u8) -> Received
    ensures { received_numbers result ≡ plain_answer refusal [] }
{
    Received {
        refusal,
        ..Received::default()
    }
}

impl From<Measured> for Accepted {
    ghost from_gives = { λ said a. accepted_numbers a ≡ measured_numbers said.measurement (chunk_number said.chunk) };

    fn from(said: Measured) -> Accepted {
        let measurement = match said.measurement {
            Ok(measurement) => Measurement::from(Some(measurement)),
            Err(unusable) => Measurement {
                judgement: unusable.number(),
                offset: 0,
                delay: 0,
            },
        };
        Accepted {
            measurement,
            chunk: said.chunk.number(),
        }
    }
}

impl<R: RefusedBy> From<Result<Accepted, R>> for Received {
    ghost from_gives = { λ said r. received_numbers r ≡ accepted_by R.as_number said };

    fn from(said: Result<Accepted, R>) -> Received {
        let Accepted { measurement, chunk } = match said {
            Ok(accepted) => accepted,
            Err(refusal) => return of_refusal(refusal.number()),
        };
        Received {
            judgement: measurement.judgement,
            chunk,
            offset: measurement.offset,
            delay: measurement.delay,
            ..Received::default()
        }
    }
}

impl<R: RefusedBy> From<Result<Measured, R>> for Received {
    ghost from_gives = { λ said r. received_numbers r ≡ received_by R.as_number said };

    fn from(said: Result<Measured, R>) -> Received {
        Received::from(said.map(Accepted::from))
    }
}

fn verdict_number(verdict: client::Verdict) -> u8
    ensures { result ≡ (verdict_answer_of (Ok verdict)).verdict }
{
    match verdict {
        client::Verdict::Incomplete => 1,
        client::Verdict::Loop => 2,
        client::Verdict::Clear => 3,
    }
}

impl<R: RefusedBy> From<Result<client::Verdict, R>> for Verdict {
    ghost from_gives = { λ said v. verdict_numbers v ≡ verdict_by R.as_number said };

    fn from(said: Result<client::Verdict, R>) -> Verdict {
        match said {
            Ok(verdict) => Verdict {
                refusal: 0,
                verdict: verdict_number(verdict),
            },
            Err(refusal) => Verdict {
                refusal: refusal.number(),
                verdict: 0,
            },
        }
    }
}

// As for `Written`: in include/ntp5.h each has a struct of its own.
impl<R: RefusedBy> From<Result<u16, R>> for Weight {
    ghost from_gives = { λ said w. weight_numbers w ≡ numbers (result_by R.as_number said) };

    fn from(said: Result<u16, R>) -> Weight {
        match said {
            Ok(weight) => Weight { refusal: 0, weight },
            Err(refusal) => Weight {
                refusal: refusal.number(),
                weight: 0,
            },
        }
    }
}

// Any judgement, and any offset and delay beside it.
impl From<(u8, measure::Measurement)> for Measurement {
    ghost from_gives = { λ said m. measurement_numbers m ≡ judged_measurement said.0 said.1 };

    fn from(said: (u8, measure::Measurement)) -> Measurement {
        let (judgement, measurement) = said;
        Measurement {
            judgement,
            offset: measurement.offset,
            delay: measurement.delay,
        }
    }
}

// Field by field: through the conversion above a measurement takes half as long again.
impl From<Option<measure::Measurement>> for Measurement {
    ghost from_gives = { λ said m. measurement_numbers m ≡ measured said };

    fn from(said: Option<measure::Measurement>) -> Measurement {
        match said {
            Some(measurement) => Measurement {
                judgement: 0,
                offset: measurement.offset,
                delay: measurement.delay,
            },
            None => Measurement {
                judgement: Unusable::HalfEra.number(),
                offset: 0,
                delay: 0,
            },
        }
    }
}
