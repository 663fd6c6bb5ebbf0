// The call on a trace and a client table. It makes a record's call by the exports themselves: the core's calls then have one caller each,
// into which they are compiled.
ghost use Rattle.std.specs.Prelude.{◌≡◌};
ghost use Rattle.trace_rules.specs.Replay.{made_by, replay_at};
ghost use Rattle.c_structs.specs.Replayed.{replay_left};

use crate::client_calls::{ntp5_close, ntp5_open, ntp5_poll, ntp5_receive, ntp5_sent};
use c_structs::answers::of_refusal;
use c_structs::replayed::{Replayed, not_made, of_made};
use trace::HEAD;
use trace_rules::{Action, Found, Record};

// The call of a record, whose datagram this is if it has one; `next` is the place after it.
fn make(table: &mut [u64], found: Record, datagram: &[u8], next: usize, out: &mut [u8]) -> Replayed
    ensures { (result, out.new, table.new) ≡ replay_left (made_by found datagram.now next out.old table.old) }
{
    let association = found.association;
    let (answered, length) = match found.action {
        Action::Open(edition, timescale, chunk) => {
            let refusal = ntp5_open(table, association, edition, timescale, chunk);
            (of_refusal(refusal), 0)
        }
        Action::Poll(cookie, exponent, interleaved) => {
            let written = ntp5_poll(table, association, cookie.0, exponent, interleaved, out);
            (of_refusal(written.refusal), written.length)
        }
        Action::Sent(t1) => (of_refusal(ntp5_sent(table, association, t1)), 0),
        Action::Receive(t4) => (ntp5_receive(table, association, datagram, t4), 0),
        Action::Close => (of_refusal(ntp5_close(table, association)), 0),
    };
    of_made(found, next, answered, length)
}

// W208-13: the record at a place. A poll is lent `out` as it is.
pub fn ntp5_replay(table: &mut [u64], trace: &[u8], at: usize, out: &mut [u8]) -> Replayed
    ensures { (result, out.new, table.new) ≡ replay_left (replay_at trace.now at out.old table.old) }
{
    if trace.len() <= at {
        return not_made(Found::End, at);
    }
    let rest = &trace[at..];
    let found = trace::read(rest);
    let Found::Call(record) = found else {
        return not_made(found, at);
    };
    let end = HEAD + record.size;
    let next = at + end;
    make(table, record, &rest[HEAD..end], next, out)
}
