// The responder: the answer to a request, R-4 to R-20, in either edition, W204-13, with the saved timestamps of interleaved mode.
#![tactic(auto)]

pub mod named;
mod saved;

ghost use Rattle.std.specs.Prelude.{◌≡◌, cond, ◌++◌, ◌≤◌, length};
ghost use Rattle.refusal.specs.Refusal.{outcome_number, by_number};
ghost use Rattle.header.specs.Edition.{Within};
ghost use Rattle.header.specs.Header.{header_octets};
ghost use Rattle.chain.specs.Chain.{sound_refusal};
ghost use Rattle.chain.specs.Content.{chain_octets};
ghost use Rattle.store_rules.specs.Row.{wrong_store};
ghost use Rattle.responder_rules.specs.Answer.{given_as, first_refusal, sent_fields, outcome, answer_of};

use header::Header;
use header::edition::{Edition, over_limits};
use refusal::Refusal;
pub use responder_rules::{Given, Server};

// What the arguments and the request are refused by: 6, then 1 to 5 and 13.
pub fn check(edition: Edition, given: Given<'_>) -> Result<(), Refusal>
    ensures { outcome_number result ≡ first_refusal (given_as given.entry edition) }
{
    let server = given.server;
    if over_limits(edition, server.stratum, server.timescale, server.flags) {
        return Err(Refusal::BadArgument);
    }
    if (given.filter.len() != 512)
        | (given.information.len() != 4)
        | (3 < server.leap)
        | (given.receive == 0)
        | (given.estimate == 0)
    {
        return Err(Refusal::BadArgument);
    }
    chain::sound(given.request, 3)
}

// The same after the store's 6. A function of its own: with its tests in `answer` the compiler leaves writing and saving out of line, 80
// instructions an answer.
fn check_with_store(store: &[u8], edition: Edition, given: Given<'_>) -> Result<(), Refusal>
    ensures { outcome_number result ≡ cond (wrong_store store.now) 6 (first_refusal (given_as given.entry edition)) }
{
    if store_check::wrong(store) {
        return Err(Refusal::BadArgument);
    }
    check(edition, given)
}

// Writes an answer to a sound request over `out`, which is as long.
fn write(header: Header, given: Given<'_>, out: &mut [u8])
    requires { (sound_refusal given.request.now 3 ≡ 0) × (length given.filter.now ≡ 512) × (length given.information.now ≡ 4)
        × (length out.old ≡ length given.request.now) × (header.leap ≤ 3) × (header.mode ≡ 4)
        × Within header.edition header.stratum header.timescale header.flags }
    ensures { out.new ≡ header_octets header ++ chain_octets (sent_fields (given_as given.entry header.edition)) }
{
    let edition = header.edition;
    header::layout::put(header, out);
    answer_fields::write(edition, given, out);
}

// Answers a request: the answer goes to the start of `out` and is as long as the request (R-20).
pub fn answer(
    store: &mut [u8],
    edition: Edition,
    given: Given<'_>,
    out: &mut [u8],
) -> Result<u16, Refusal>
    ensures { outcome (by_number result) out.new store.new ≡ answer_of (given_as given.entry edition) store.old out.old }
{
    check_with_store(store, edition, given)?;
    let asked = header::layout::fields(edition, given.request);
    if saved::wrong_fresh(store, asked, given.fresh_cookie) {
        return Err(Refusal::BadCookie);
    }
    let n = given.request.len();
    if out.len() < n {
        return Err(Refusal::NoRoom);
    }
    let time = saved::time(store, asked);
    let header = answer_header::header_of(given, asked, time);
    write(header, given, &mut out[0..n]);
    saved::keep(store, asked, given.fresh_cookie, time);
    Ok(n as u16)
}
