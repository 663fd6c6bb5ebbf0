// The answer to a request, R-4 to R-20, in either edition, W204-13, with the saved timestamps of interleaved mode in a lent slice of
// records, G-9.
#![tactic(auto)]

mod datagram;

ghost use Rattle.std.specs.Prelude.{◌≡◌, length};
ghost use Rattle.std.specs.Option.{unwrap_or};
ghost use Rattle.refusal.specs.Refusal.{result_by, by_number, not_by_0, and_not_by_0};
ghost use Rattle.responder_rules.specs.Answer.{given_as};
ghost use Rattle.records.specs.Records.{records_in, leave_records, join_records};
ghost use Rattle.answer_plan.specs.Step.{step_as, stepped, answer_step};
ghost use Rattle.records_answer.specs.Answer.{outcome, answer_records};

use answer_plan::{Found, Plan};
use header::edition::Edition;
use header::{Header, ServerCookie};
use records::Record;
use refusal::{Refusal, RefusedBy};
pub use responder_rules::{Given, Server};

// A record leaves, if one is to, and then the fresh cookie joins.
fn replace(records: &mut [Record], leaving: Option<usize>, fresh_cookie: ServerCookie)
    ensures { records_in records.new
        ≡ join_records (leave_records (records_in records.old) (unwrap_or leaving (length records.old))) fresh_cookie.0 }
{
    if let Some(at) = leaving {
        records::leave(records, at);
    }
    records::join(records, fresh_cookie);
}

// The one step of an answer on the records: it decides all the refusals that are left, and where there is none, the record whose time is
// sent leaves and the fresh cookie joins. `request` is its header or what it is refused by, which is handed on whatever its number is, but
// for 0, which refuses nothing; `short`: the output is shorter than the answer. The saved time is what is sent, and 0 in a basic answer.
pub fn answer_step<R: RefusedBy>(
    records: &mut [Record],
    request: Result<Header, R>,
    short: bool,
    fresh_cookie: ServerCookie,
) -> Result<u64, R>
    ensures { (stepped (step_as (result_by R.as_number result)) (records_in records.new), not_by_0 R.as_number result)
        ≡ and_not_by_0 (answer_step (result_by R.as_number request) short fresh_cookie.0 (records_in records.old)) }
{
    let at = records::find(records, 0, answer_plan::asked_cookie(request));
    let found = Found {
        wrong: records::wrong(records),
        len: records.len(),
        fresh_at: records::find(records, 0, fresh_cookie),
        at,
        time: records::time(records, at),
    };
    match answer_plan::plan_of(found, request, short, fresh_cookie)? {
        Plan::Basic => Ok(0),
        Plan::Interleaved { saved, leaving } => {
            replace(records, leaving, fresh_cookie);
            Ok(saved)
        }
    }
}

// Answers a request: the answer goes to the start of `out` and is as long as the request (R-20).
pub fn answer(
    records: &mut [Record],
    edition: Edition,
    given: Given<'_>,
    out: &mut [u8],
) -> Result<u16, Refusal>
    ensures { outcome (by_number result) out.new (records_in records.new)
        ≡ answer_records (given_as given.entry edition) (records_in records.old) out.old }
{
    let checked = datagram::checked(edition, given);
    let short = out.len() < given.request.len();
    let step = answer_step(records, checked, short, given.fresh_cookie);
    datagram::sent(step, checked, edition, given, out)
}
