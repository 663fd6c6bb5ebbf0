// A replayed record of a trace, as C is given it.
ghost use Rattle.std.specs.Prelude.{◌≡◌, []};
ghost use Rattle.trace_rules.specs.Written.{kind_of};
ghost use Rattle.trace_rules.specs.Replay.{not_made};
ghost use Rattle.c_structs.specs.Numbers.{received_numbers};
ghost use Rattle.c_structs.specs.Replayed.{fault_number, not_made_numbers, made_numbers, replayed_numbers};

use crate::answers::{Received, of_refusal};
use trace_rules::{Action, Fault, Found, Record};

// W208-13: what was found, where the next record begins, and what the call answered; all but state and next are 0 where none was made.
// One flat struct in include/ntp5.h: so the fields of `Received` stand here again.
#[repr(C)]
#[derive(Clone, Copy, Default)]
pub struct Replayed {
    pub state: u8,
    pub kind: u8,
    pub association: u8,
    pub next: usize,
    pub refusal: u8,
    pub judgement: u8,
    pub chunk: u8,
    pub length: u16,
    pub offset: i64,
    pub delay: u64,
}

// No `From`: neither type is of this crate.
fn fault_number(fault: Fault) -> u8
    ensures { result ≡ fault_number fault }
{
    match fault {
        Fault::Mark => 2,
        Fault::Kind => 3,
        Fault::Length => 4,
        Fault::Cut => 5,
    }
}

fn kind_of(action: Action) -> u8
    ensures { result ≡ kind_of action }
{
    match action {
        Action::Open(_, _, _) => 1,
        Action::Poll(_, _, _) => 2,
        Action::Sent(_) => 3,
        Action::Receive(_) => 4,
        Action::Close => 5,
    }
}

// A call that was made: what it answered as a receive does, and how many octets it wrote.
pub fn of_made(record: Record, next: usize, answered: Received, length: u16) -> Replayed
    ensures { result ≡ made_numbers «record» next (received_numbers answered) length }
{
    Replayed {
        state: 1,
        kind: kind_of(record.action),
        association: record.association,
        next,
        refusal: answered.refusal,
        judgement: answered.judgement,
        chunk: answered.chunk,
        length,
        offset: answered.offset,
        delay: answered.delay,
    }
}

// A place where no call is made. That of a call is asked for by nobody: it is there so that the function is total.
pub fn not_made(found: Found, at: usize) -> Replayed
    ensures { result ≡ replayed_numbers (not_made found at [] []) }
{
    match found {
        Found::Call(record) => of_made(record, at, of_refusal(0), 0),
        Found::End => stopped(0, at),
        Found::Wrong(fault) => stopped(fault_number(fault), at),
    }
}

fn stopped(state: u8, at: usize) -> Replayed
    ensures { result ≡ not_made_numbers state at }
{
    Replayed {
        state,
        next: at,
        ..Replayed::default()
    }
}
