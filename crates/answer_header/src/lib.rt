// The header of an answer, R-5 to R-12, in either edition, W204-13.
#![tactic(auto)]

ghost use Rattle.std.specs.Prelude.{◌≡◌};
ghost use Rattle.responder_rules.specs.Answer.{wants_interleaved, sent_flags, sent_offset, answer_header};

use header::edition::{Edition, interleaved_bit, is_interleaved};
use header::{Header, ServerCookie};
use responder_rules::Given;

// H-8: a request that wants an interleaved answer.
pub fn wants_interleaved(asked: Header) -> bool
    ensures { result ≡ wants_interleaved asked }
{
    is_interleaved(asked.edition, asked.flags)
}

// R-6: the server's flags without the interleaved one, which is set where a saved time is sent (R-9).
fn flags_of(edition: Edition, flags: u16, saved: u64) -> u16
    ensures { result ≡ sent_flags edition flags saved }
{
    let bit = interleaved_bit(edition);
    if saved == 0 {
        flags & !bit
    } else {
        flags | bit
    }
}

// W204-13: the timescale offset, which only edition 1 sends.
fn offset_of(edition: Edition, timescale_offset: i16) -> i16
    ensures { result ≡ sent_offset edition timescale_offset }
{
    match edition {
        Edition::One => timescale_offset,
        Edition::Seven => 0,
    }
}

// R-5. A saved time of 0 is none: then the answer is basic.
pub fn header_of(given: Given<'_>, asked: Header, saved: u64) -> Header
    ensures { result ≡ answer_header given.entry.server asked given.entry.receive given.entry.estimate given.entry.fresh_cookie.0 saved }
{
    let server = given.server;
    // R-7, R-12
    let server_cookie = if wants_interleaved(asked) {
        given.fresh_cookie
    } else {
        ServerCookie(0)
    };
    Header {
        edition: asked.edition,
        leap: server.leap,
        mode: 4,
        stratum: server.stratum,
        poll: server.poll,
        precision: server.precision,
        timescale: server.timescale,
        era: server.era,
        timescale_offset: offset_of(asked.edition, server.timescale_offset),
        flags: flags_of(asked.edition, server.flags, saved),
        root_delay: server.root_delay,
        root_dispersion: server.root_dispersion,
        server_cookie,
        client_cookie: asked.client_cookie,
        receive: given.receive,
        // R-9, R-11
        transmit: if saved == 0 { given.estimate } else { saved },
    }
}
