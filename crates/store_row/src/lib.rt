// The row's records by their places in the octets. Each function takes any octets.
#![tactic(auto)]

ghost use Rattle.std.specs.Prelude.{◌≡◌};
ghost use Rattle.store_rules.specs.Place.{place_of, removed, joined_octets};

use header::ServerCookie;
use octets::{number, part};

// Where the first record with this cookie stands, or the end of the records.
// The end and no `Option`: `place_of` says so. The place is counted beside the records, since callers ask for it.
pub fn find(store: &[u8], cookie: ServerCookie) -> usize
    ensures { result ≡ place_of store.now cookie.0 }
{
    let mut at = 0;
    for record in store.chunks_exact(16) {
        if number::get::<u64>(record, 0) == cookie.0 {
            break;
        }
        at += 16;
    }
    at
}

// R-10: the record at a place leaves, and those after it move up.
pub fn remove(store: &mut [u8], at: usize)
    ensures { store.new ≡ removed store.old at }
{
    if part::has_room(store, at, 16) {
        let last = store.len() - 16;
        store.copy_within(at + 16.., at);
        store[last..].fill(0);
    }
}

// R-12, R-13: a cookie goes to the first record that is unused.
pub fn join(store: &mut [u8], cookie: ServerCookie)
    ensures { store.new ≡ joined_octets store.old cookie.0 }
{
    let free = find(store, ServerCookie(0));
    let n = store.len();
    if free < n {
        number::put(store, free, cookie.0);
        return;
    }
    let last = n.saturating_sub(16);
    remove(store, 0);
    number::put(store, last, cookie.0);
}
