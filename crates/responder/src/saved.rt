// What an answer has to do with the saved timestamps.
ghost use Rattle.std.specs.Prelude.{◌≡◌, false, cond, eqb};
ghost use Rattle.store_rules.specs.Row.{time_of, without, size_of, row_of, wrong_store, store_octets};
ghost use Rattle.responder_rules.specs.Answer.{saved_time, wrong_fresh, row_after};

use answer_header::wants_interleaved;
use header::{Header, ServerCookie};
use octets::number;

// N-20, by R-8.
// A sound store, and no type for it: one test for four private functions, on octets that C lends.
pub(crate) fn wrong_fresh(store: &[u8], asked: Header, fresh_cookie: ServerCookie) -> bool
    requires { wrong_store store.now ≡ false }
    ensures { result ≡ wrong_fresh asked fresh_cookie.0 (row_of store.now) }
{
    if wants_interleaved(asked) {
        let at = store_row::find(store, fresh_cookie);
        return (fresh_cookie.0 == 0) | (at < store.len());
    }
    false
}

// R-9: the time that was reported for the cookie of a request that wants an interleaved answer, or 0.
// 0 and no `Option`: a time that was not reported is 0 in the store (R-2) and in `saved_time`.
pub(crate) fn time(store: &[u8], asked: Header) -> u64
    requires { wrong_store store.now ≡ false }
    ensures { result ≡ saved_time asked (row_of store.now) }
{
    if wants_interleaved(asked) {
        let at = store_row::find(store, asked.server_cookie);
        return number::get::<u64>(store, at + 8);
    }
    0
}

// R-10: the record whose time was sent leaves; a time of 0 was not.
fn leave(store: &mut [u8], cookie: ServerCookie, time: u64)
    requires { (wrong_store store.old ≡ false) × (time ≡ time_of cookie.0 (row_of store.old)) }
    ensures { store.new ≡ store_octets (size_of store.old)
        (cond (eqb time 0) (row_of store.old) (without cookie.0 (row_of store.old))) }
{
    if time == 0 {
        return;
    }
    let at = store_row::find(store, cookie);
    store_row::remove(store, at);
}

// What an answer leaves: R-10, then R-12 to R-14.
pub(crate) fn keep(store: &mut [u8], asked: Header, fresh_cookie: ServerCookie, time: u64)
    requires { (wrong_store store.old ≡ false) × (time ≡ saved_time asked (row_of store.old)) }
    ensures { store.new ≡ store_octets (size_of store.old)
        (row_after asked fresh_cookie.0 (size_of store.old) (row_of store.old)) }
{
    if wants_interleaved(asked) {
        leave(store, asked.server_cookie, time);
        store_row::join(store, fresh_cookie);
    }
}
