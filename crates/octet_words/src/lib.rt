// Octets as words of 64 bits and back, the one conversion of W203-1 and W210-6. A word's first octet is its lowest. Where a part runs past an
// end, nothing changes.
#![tactic(auto)]

mod eight;

ghost use Rattle.std.specs.Prelude.{◌≡◌, ◌+◌, ◌*◌, ◌≤◌, length, drop};
ghost use Rattle.std.proofs.Math.Seq.{paste};
ghost use Rattle.octets.specs.Part.{has_room, overwrite};
ghost use Rattle.word_rules.specs.Words.{octets_of, word_at, words_from, take_words, copy_by_words, zeroed};

use crate::eight::{load, store};
use octets::part;

// The word of the eight octets from `at` on, 0 where they run past the end. In a loop over a slice of known size the test
// costs nothing.
pub fn word(s: &[u8], at: usize) -> u64
    ensures { result ≡ word_at s.now at }
{
    if part::has_room(s, at, 8) {
        load(s, at)
    } else {
        0
    }
}

// Whether s has n times eight octets from `at` on. The product might not fit a usize, so the length is divided.
fn has_octets(s: &[u8], at: usize, n: usize) -> bool
    ensures { result ≡ has_room s.now at (8 * n) }
{
    if at <= s.len() {
        n <= (s.len() - at) / 8
    } else {
        false
    }
}

// n words from word `at` on become those of the octets of `source` from `from` on.
pub fn take(words: &mut [u64], at: usize, source: &[u8], from: usize, n: usize)
    ensures { words.new ≡ take_words words.old at source.now from n }
{
    if has_octets(source, from, n) {
        if part::has_room(words, at, n) {
            take_all(&mut words[at..at + n], &source[from..]);
        }
    }
}

// All the words become those of the source.
fn take_all(words: &mut [u64], source: &[u8])
    requires { 8 * length words.old ≤ length source.now }
    ensures { words.new ≡ words_from source.now 0 (length words.old) }
{
    for (i, w) in words.iter_mut().enumerate() {
        *w = load(source, 8 * i);
    }
}

// The octets of all the words go to `at` and on.
pub fn put(out: &mut [u8], at: usize, words: &[u64])
    ensures { out.new ≡ overwrite out.old at (octets_of words.now) (8 * length words.now) }
{
    if has_octets(out, at, words.len()) {
        for (i, w) in words.iter().enumerate() {
            store(out, at + 8 * i, *w);
        }
    }
}

// n octets of `source` from `from` on go to `to` and on, eight at a time (W210-5), and those that are left after them.
pub fn copy(out: &mut [u8], to: usize, source: &[u8], from: usize, n: usize)
    ensures { out.new ≡ copy_by_words out.old to source.now from n }
{
    if part::has_room(source, from, n) {
        if part::has_room(out, to, n) {
            copy_all(out, to, source, from, n);
        }
    }
}

fn copy_all(out: &mut [u8], to: usize, source: &[u8], from: usize, n: usize)
    requires { (to + n ≤ length out.old) × (from + n ≤ length source.now) }
    ensures { out.new ≡ paste out.old to (drop from source.now) n }
{
    let whole = n / 8;
    copy_words(out, to, source, from, whole);
    part::copy(out, to + 8 * whole, source, from + 8 * whole, n % 8);
}

fn copy_words(out: &mut [u8], to: usize, source: &[u8], from: usize, whole: usize)
    requires { (to + 8 * whole ≤ length out.old) × (from + 8 * whole ≤ length source.now) }
    ensures { out.new ≡ paste out.old to (drop from source.now) (8 * whole) }
{
    // By an index: of what is written through `chunks_exact_mut` a proof knows nothing behind the loan.
    for i in 0..whole {
        store(out, to + 8 * i, load(source, from + 8 * i));
    }
}

// Each of the words becomes 0.
// A function for its clause, `zeroed`, which the table's laws cite.
pub fn zero(words: &mut [u64])
    ensures { words.new ≡ zeroed words.old }
{
    words.fill(0);
}
