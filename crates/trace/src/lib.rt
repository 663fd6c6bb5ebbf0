// A trace of client calls, W-208: what it begins with.
#![tactic(auto)]

mod kind;

ghost use Rattle.std.specs.Prelude.{◌≡◌, ◌+◌, ◌<◌, ◌≤◌, length};
ghost use Rattle.trace_rules.specs.Record.{head_length, data_size, found_in};
ghost use Rattle.trace.specs.Kind.{kind_number, found_of, action_or_fault};

use header::ClientCookie;
use kind::Kind;
use octets::number::get;
use trace_rules::{Action, Fault, Found, Record};

// W208-2: the octets before the data.
pub const HEAD: usize = 14;

// W208-1.
const MARK: u16 = 0x4E35;

// W208-4, W208-5: the call of a kind, whose data is there. A poll's mode is 0 or 1.
fn action(kind: Kind, s: &[u8]) -> Result<Action, Fault>
    requires { head_length + data_size (kind_number kind) 0 ≤ length s.now }
    ensures { result ≡ action_or_fault (kind_number kind) s.now }
{
    match kind {
        Kind::Open => Ok(Action::Open(get::<u8>(s, 14), get::<u8>(s, 15), get::<u16>(s, 16))),
        Kind::Poll => {
            let interleaved = match get::<u8>(s, 23) {
                0 => false,
                1 => true,
                _ => return Err(Fault::Kind),
            };
            Ok(Action::Poll(
                ClientCookie(get::<u64>(s, 14)),
                get::<u8>(s, 22).cast_signed(),
                interleaved,
            ))
        }
        Kind::Sent => Ok(Action::Sent(get::<u64>(s, 6))),
        Kind::Receive => Ok(Action::Receive(get::<u64>(s, 6))),
        Kind::Close => Ok(Action::Close),
    }
}

// W208-6, W208-7: the record that octets begin with, or its first fault.
#[tactic(auto, using(octets::proofs::Numbers::got), unfolding(trace_rules::specs::Record::found_in))]
fn record(s: &[u8]) -> Result<Record, Fault>
    requires { 0 < length s.now }
    ensures { found_of result ≡ found_in s.now }
{
    if s.len() < HEAD {
        return Err(Fault::Cut);
    }
    if get::<u16>(s, 0) != MARK {
        return Err(Fault::Mark);
    }
    let kind = Kind::try_from(get::<u8>(s, 2))?;
    let size = usize::from(get::<u16>(s, 4));
    if size != kind.data_size(size) {
        return Err(Fault::Length);
    }
    if s.len() - HEAD < size {
        return Err(Fault::Cut);
    }
    let action = action(kind, s)?;
    Ok(Record {
        association: get::<u8>(s, 3),
        action,
        size,
    })
}

#[tactic(auto, unfolding(trace_rules::specs::Record::found_in))]
pub fn read(s: &[u8]) -> Found
    ensures { result ≡ found_in s.now }
{
    if s.is_empty() {
        return Found::End;
    }
    match record(s) {
        Ok(record) => Found::Call(record),
        Err(fault) => Found::Wrong(fault),
    }
}
