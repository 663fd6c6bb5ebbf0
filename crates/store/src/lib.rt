// The responder's saved timestamps, R-1 to R-3, on lent octets: a record is 16 octets, a server cookie and its transmit time.
#![tactic(auto)]

ghost use Rattle.std.specs.Prelude.{◌≡◌};
ghost use Rattle.refusal.specs.Refusal.{outcome_number};
ghost use Rattle.store_rules.specs.Row.{cleared, reporting};

use header::ServerCookie;
use octets::number;
use refusal::Refusal;

pub fn clear(store: &mut [u8]) -> Result<(), Refusal>
    ensures { (outcome_number result, store.new) ≡ cleared store.old }
{
    if store_check::wrong_size(store) {
        return Err(Refusal::BadArgument);
    }
    store.fill(0);
    Ok(())
}

// R-3.
pub fn report(store: &mut [u8], cookie: ServerCookie, time: u64) -> Result<(), Refusal>
    ensures { (outcome_number result, store.new) ≡ reporting store.old cookie.0 time }
{
    if store_check::wrong(store) {
        return Err(Refusal::BadArgument);
    }
    if time == 0 {
        return Err(Refusal::BadArgument);
    }
    // An unused record has cookie 0 too.
    if cookie.0 == 0 {
        return Err(Refusal::NotStored);
    }
    let at = store_row::find(store, cookie);
    if at >= store.len() {
        return Err(Refusal::NotStored);
    }
    if number::get::<u64>(store, at + 8) != 0 {
        return Err(Refusal::NotStored);
    }
    number::put(store, at + 8, time);
    Ok(())
}
