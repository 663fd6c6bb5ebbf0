// What a step decides, by value.
#![tactic(auto)]

ghost use Rattle.std.specs.Prelude.{◌≡◌, false};
ghost use Rattle.refusal.specs.Refusal.{outcome_number, result_by, not_by_0, and_not_by_0};
ghost use Rattle.responder_rules.specs.Answer.{refused_answer};
ghost use Rattle.answer_plan.specs.Value.{request_cookie, plan_as, keeping_plan, plan_of, leaves, planned};

use answer_header::wants_interleaved;
use header::{Header, ServerCookie};
use refusal::{Refusal, RefusedBy};

// What is found in the records: whether they are wrong, how many there are, the places of the fresh cookie and of the request's, or the
// end, and the time at the latter.
// `wrong` stands beside the others: `plan_of` takes them whether it holds or not.
#[derive(Clone, Copy)]
pub struct Found {
    pub wrong: bool,
    pub len: usize,
    pub fresh_at: usize,
    pub at: usize,
    pub time: u64,
}

// What a step does that is not refused.
#[derive(Clone, Copy)]
pub enum Plan {
    // The records stay.
    Basic,
    // A saved time is sent, 0 where there is none. The record at `leaving` leaves, if there is one, before the fresh cookie joins.
    // 0 and no `Option` of a time, as `saved_time` has it.
    Interleaved { saved: u64, leaving: Option<usize> },
}

// The server cookie of a request; 0 where it is refused, whatever it is refused by.
pub fn asked_cookie<E: Copy>(request: Result<Header, E>) -> ServerCookie
    ensures { result ≡ request_cookie request }
{
    match request {
        Ok(asked) => asked.server_cookie,
        Err(_) => ServerCookie(0),
    }
}

// The last refusals in the order of N-26: 8, 11.
fn refused(wrong_cookie: bool, short: bool) -> Result<(), Refusal>
    ensures { outcome_number result ≡ refused_answer false 0 wrong_cookie short }
{
    if wrong_cookie {
        return Err(Refusal::BadCookie);
    }
    if short {
        return Err(Refusal::NoRoom);
    }
    Ok(())
}

// What an answer that is not refused does.
fn keeping(wants: bool, found: Found) -> Plan
    ensures { (plan_as found.len (Ok result), leaves (Ok result))
        ≡ planned (keeping_plan wants found.len found.at found.time) }
{
    if !wants {
        return Plan::Basic;
    }
    let leaving = (found.time != 0).then_some(found.at);
    Plan::Interleaved {
        saved: found.time,
        leaving,
    }
}

// The refusals come in the order of N-26: the records' 6, what the arguments and the request are refused by, 8, 11. What the request is
// refused by is handed on, whatever its number is; 0 refuses nothing.
pub fn plan_of<R: RefusedBy>(
    found: Found,
    request: Result<Header, R>,
    short: bool,
    fresh_cookie: ServerCookie,
) -> Result<Plan, R>
    ensures { ((plan_as found.len (result_by R.as_number result), leaves (result_by R.as_number result)), not_by_0 R.as_number result)
        ≡ and_not_by_0 (planned (plan_of found.wrong (result_by R.as_number request) short fresh_cookie found.len found.fresh_at found.at found.time)) }
{
    if found.wrong {
        return Err(R::of(Refusal::BadArgument));
    }
    let asked = match request {
        Ok(asked) => asked,
        Err(by) if by.number() == 0 => return Ok(Plan::Basic),
        Err(by) => return Err(by),
    };
    let wants = wants_interleaved(asked);
    let no_cookie = fresh_cookie == ServerCookie(0);
    let wrong_cookie = wants & (no_cookie | (found.fresh_at < found.len));
    if let Err(refusal) = refused(wrong_cookie, short) {
        return Err(R::of(refusal));
    }
    Ok(keeping(wants, found))
}
