// The parts of an answer that do not look at the records.
ghost use Rattle.std.specs.Prelude.{◌≡◌, []};
ghost use Rattle.refusal.specs.Refusal.{by_number};
ghost use Rattle.responder_rules.specs.Answer.{given_as};
ghost use Rattle.answer_plan.specs.Step.{step_as};
ghost use Rattle.records_answer.specs.Answer.{checked_request, outcome};
ghost use Rattle.records_answer.specs.Sent.{Ready, answer_sent};

use header::Header;
use header::edition::Edition;
use refusal::Refusal;
use responder_rules::Given;

// The header of the request, or what it or the arguments are refused by: 6, then 1 to 5 and 13.
pub(crate) fn checked(edition: Edition, given: Given<'_>) -> Result<Header, Refusal>
    ensures { by_number result ≡ checked_request (given_as given.entry edition) }
{
    responder::check(edition, given)?;
    header::read(edition, given.request, 3)
}

// What the step returned is the refusal, or the answer is written to the start of `out`.
pub(crate) fn sent(
    step: Result<u64, Refusal>,
    checked: Result<Header, Refusal>,
    edition: Edition,
    given: Given<'_>,
    out: &mut [u8],
) -> Result<u16, Refusal>
    requires { ((step_as (by_number step)).refusal ≡ 0) → Ready (by_number checked) (given_as given edition) out.old }
    ensures { outcome (by_number result) out.new []
        ≡ answer_sent (given_as given.entry edition) (step_as (by_number step)) out.old }
{
    let saved = step?;
    let asked = checked?;
    let header = answer_header::header_of(given, asked, saved);
    let n = given.request.len();
    let part = &mut out[..n];
    header::layout::put(header, part);
    answer_fields::write(edition, given, part);
    Ok(n as u16)
}
