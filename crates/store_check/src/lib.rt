// The store part of refusal 6: N-10 and N-14.
#![tactic(auto)]

ghost use Rattle.std.specs.Prelude.{◌≡◌, ◌+◌, ◌-◌, ◌/◌, ◌%◌, ◌≤◌, eqb, length};
ghost use Rattle.octets.specs.Number.{num};
ghost use Rattle.store_rules.specs.Row.{held, records_from, all_unused, wrong_size, wrong_store};

use octets::number;

// N-10, by R-1.
pub fn wrong_size(store: &[u8]) -> bool
    ensures { result ≡ wrong_size store.now }
{
    let n = store.len();
    (n < 16) | (1024 < n) | (n % 16 != 0)
}

// Whether all records from a place on are unused.
fn unused_from(store: &[u8], from: usize) -> bool
    requires { from ≤ length store.now }
    ensures { result ≡ all_unused (records_from ((length store.now - from) / 16) store.now from) }
{
    for record in store[from..].chunks_exact(16) {
        if (number::get::<u64>(record, 0) != 0) | (number::get::<u64>(record, 8) != 0) {
            return false;
        }
    }
    true
}

// Whether the four octets at two places are the same. Octet by octet compiles to one comparison; numbers would be turned round first.
// Not by slices or numbers: as numbers they would be turned round first.
fn same_half(a: &[u8], b: &[u8], at: usize) -> bool
    requires { (at + 4 ≤ length a.now) × (at + 4 ≤ length b.now) }
    ensures { result ≡ eqb (num a.now at 4) (num b.now at 4) }
{
    (a[at] == b[at])
        & (a[at + 1] == b[at + 1])
        & (a[at + 2] == b[at + 2])
        & (a[at + 3] == b[at + 3])
}

// Whether two records have the same cookie.
fn same_cookie(a: &[u8], b: &[u8]) -> bool
    requires { (8 ≤ length a.now) × (8 ≤ length b.now) }
    ensures { result ≡ eqb (num a.now 0 8) (num b.now 0 8) }
{
    same_half(a, b, 0) & same_half(a, b, 4)
}

// Whether the four octets at a place are 0, octet by octet too.
fn zero_half(store: &[u8], at: usize) -> bool
    requires { at + 4 ≤ length store.now }
    ensures { result ≡ eqb (num store.now at 4) 0 }
{
    (store[at] == 0) & (store[at + 1] == 0) & (store[at + 2] == 0) & (store[at + 3] == 0)
}

// Whether a record's cookie is 0.
fn no_cookie(store: &[u8], at: usize) -> bool
    requires { at + 8 ≤ length store.now }
    ensures { result ≡ eqb (num store.now at 8) 0 }
{
    zero_half(store, at) & zero_half(store, at + 4)
}

// Whether a record after the one at a place has its cookie.
fn held_later(store: &[u8], at: usize) -> bool
    requires { at + 16 ≤ length store.now }
    ensures { result ≡ held (num store.now at 8) (records_from ((length store.now - (at + 16)) / 16) store.now (at + 16)) }
{
    // By an index: `chunks_exact` counts what is left beside its place, six instructions a turn for five.
    for i in 1..(store.len() - at) / 16 {
        if same_cookie(&store[at + 16 * i..], &store[at..]) {
            return true;
        }
    }
    false
}

// N-10, N-14.
pub fn wrong(store: &[u8]) -> bool
    ensures { result ≡ wrong_store store.now }
{
    if wrong_size(store) {
        return true;
    }
    for at in (0..store.len()).step_by(16) {
        if no_cookie(store, at) {
            return !unused_from(store, at);
        }
        if held_later(store, at) {
            return true;
        }
    }
    false
}
