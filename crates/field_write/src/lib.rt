// One field of a chain, written.
#![tactic(auto)]

ghost use Rattle.std.specs.Prelude.{◌≡◌, ◌+◌, ◌≤◌, ◌++◌, length, replicate};
ghost use Rattle.chain.specs.Chain.{padded};
ghost use Rattle.chain.specs.Content.{content, content_octets};
ghost use Rattle.field_write.specs.Write.{WrittenAt, put_field};

use octets::{number, part};

// Writes a field at a place of `out`, and answers the place after it. Its data are the octets of `source`, then as many zeros as `zeros`
// says. A field that is too long for its 16 bits, or for the room from that place on, is not written: the place stays.
// The same place and no `Option`: `put_field` says so.
#[tactic(auto, using(crate::proofs::Writing::too_long, crate::proofs::Writing::no_room, octets::proofs::Parts::room))]
pub fn put(out: &mut [u8], at: usize, kind: u16, source: &[u8], zeros: usize) -> usize
    ensures { (result, out.new) ≡ put_field out.old at (content kind (source.now ++ replicate zeros 0)) }
{
    let n = source.len();
    if 0xFFFB < n || 0xFFFB - n < zeros {
        return at;
    }
    if !part::has_room(out, at, 4 + (n + zeros + 3) / 4 * 4) {
        return at;
    }
    put_parts(out, at, kind, source, zeros)
}

// The same where the field is not too long. The source is copied a word at a time, W210-5; the zeros of the data and those of the padding
// are written as one part.
fn put_parts(out: &mut [u8], at: usize, kind: u16, source: &[u8], zeros: usize) -> usize
    requires { (length source.now + zeros ≤ 0xFFFB) × (at + (4 + padded (length source.now + zeros)) ≤ length out.old) }
    ensures { WrittenAt out.old at (content_octets (content kind (source.now ++ replicate zeros 0))) result out.new }
{
    let n = source.len();
    let padded = (n + zeros + 3) / 4 * 4;
    number::put(out, at, kind);
    number::put(out, at + 2, (n + zeros + 4) as u16);
    octet_words::copy(out, at + 4, source, 0, n);
    part::zero(out, at + 4 + n, padded - n);
    at + 4 + padded
}
