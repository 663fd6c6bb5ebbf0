// Looking through text. These functions ask nothing of their numbers: what is past an end is empty.
#![tactic(auto)]

pub mod gather;

ghost use Rattle.std.specs.Prelude.{◌≡◌, drop, position};
ghost use Rattle.text.specs.Place.{plain_of, fits, part_of, octet_place, piece_of, same_of};

// The octets from..to, or none where the text has no such part.
pub fn part(text: &[u8], from: usize, to: usize) -> &[u8]
    ensures { result.now ≡ part_of text.now from to }
{
    text.get(from..to).unwrap_or(&[])
}

// The octets from a place on.
pub fn rest(text: &[u8], from: usize) -> &[u8]
    ensures { result.now ≡ drop from text.now }
{
    text.get(from..).unwrap_or(&[])
}

// A tab and the return of a CRLF line end are spaces.
#[tactic(auto, unfolding(crate::specs::Place::plain_of))]
fn plain(octet: u8) -> u8
    ensures { result ≡ plain_of octet }
{
    match octet {
        b'\t' | b'\r' => b' ',
        _ => octet,
    }
}

// How many octets stand before the first that is this one, or that is not, if there is one.
fn first(text: &[u8], octet: u8, same: bool) -> Option<usize>
    ensures { result ≡ position (fits octet same) text.now }
{
    text.iter().position(|x| (plain(*x) == octet) == same)
}

// The first place from `at` on where an octet is this one, or where one is not; or the end.
// The end and no `Option`: `octet_place` says so.
pub fn find(text: &[u8], at: usize, octet: u8, same: bool) -> usize
    ensures { result ≡ octet_place text.now at octet same }
{
    match first(rest(text, at), octet, same) {
        Some(i) => at + i,
        None => text.len(),
    }
}

// The piece of this number, from 0 on, of those that stand between separators; empty past the last.
pub fn piece(text: &[u8], number: usize, separator: u8) -> &[u8]
    ensures { result.now ≡ piece_of text.now number separator }
{
    let mut at = find(text, 0, separator, false);
    for k in 0..number {
        at = find(text, find(text, at, separator, true), separator, false);
    }
    part(text, at, find(text, at, separator, true))
}

// Whether two texts are the same.
#[tactic(auto, using(crate::proofs::Places::same_as))]
pub fn same(a: &[u8], b: &[u8]) -> bool
    ensures { result ≡ same_of a.now b.now }
{
    a == b
}
