// The answer where the edition is named by its number: 6 where it names none, W204-1.
ghost use Rattle.std.specs.Prelude.{◌≡◌};
ghost use Rattle.refusal.specs.Refusal.{by_number};
ghost use Rattle.responder_rules.specs.Answer.{given_as, outcome, answer_named};

use crate::Given;
use header::edition::Edition;
use refusal::Refusal;

// Beside the call on an `Edition`: it promises 6 of a number that names none (`answer_named`).
pub fn answer(
    store: &mut [u8],
    edition: u8,
    given: Given<'_>,
    out: &mut [u8],
) -> Result<u16, Refusal>
    ensures { outcome (by_number result) out.new store.new ≡ answer_named edition (given_as given.entry) store.old out.old }
{
    let edition = Edition::try_from(edition)?;
    crate::answer(store, edition, given, out)
}
