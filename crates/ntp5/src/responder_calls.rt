// The responder's calls on a lent store.
ghost use Rattle.std.specs.Prelude.{◌≡◌};
ghost use Rattle.store_rules.specs.Row.{cleared, reporting};
ghost use Rattle.responder_rules.specs.Answer.{given, answer_named};
ghost use Rattle.c_structs.specs.Numbers.{outcome_numbers};

use c_structs::answers::Written;
use header::ServerCookie;
use refusal::outcome_number;
use responder::{Given, Server};

pub fn ntp5_store_clear(store: &mut [u8]) -> u8
    ensures { (result, store.new) ≡ cleared store.old }
{
    outcome_number(store::clear(store))
}

pub fn ntp5_report(store: &mut [u8], server_cookie: u64, time: u64) -> u8
    ensures { (result, store.new) ≡ reporting store.old server_cookie time }
{
    outcome_number(store::report(store, ServerCookie(server_cookie), time))
}

pub fn ntp5_answer(
    store: &mut [u8],
    edition: u8,
    request: &[u8],
    receive_time: u64,
    estimate: u64,
    fresh_cookie: u64,
    server: Server,
    filter: &[u8],
    information: &[u8],
    out: &mut [u8],
) -> Written
    ensures { outcome_numbers result out.new store.new
        ≡ answer_named edition (given request.now receive_time estimate fresh_cookie server filter.now information.now)
        store.old out.old }
{
    let given = Given {
        request,
        receive: receive_time,
        estimate,
        fresh_cookie: ServerCookie(fresh_cookie),
        server,
        filter,
        information,
    };
    let answered = responder::named::answer(store, edition, given, out);
    Written::from(answered)
}
