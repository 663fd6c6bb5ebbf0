// Filters of any element, W210-1: octets, or words of 64 bits. Each call is total: a position past the end of a slice is not set, and
// adding it changes nothing.
ghost use Rattle.std.specs.Prelude.{◌≡◌, List, ℕ, ◌/◌, ◌%◌, ◌^◌, ◌≤◌, eqb};
ghost use Rattle.std.specs.Int.Bits.{bit_or};
ghost use Rattle.filter_rules.specs.Filter.{is_set_in, add_position_in, add_all_in, contains_all_in, union};
ghost use Rattle.filter.specs.Elements.{Elements, plain};
ghost use Rattle.std.proofs.Common.{lit≤};

// An element of a filter, with as many bits as positions. `value` is its number, and `values` the numbers of a list of them.
pub trait Element: Copy {
    const BITS: u16;

    ghost BITS: { ℕ };

    ghost value: { Self → ℕ };

    ghost values: { List Self → List ℕ };

    // The element with the bit of position k alone. Past the last bit, here and in `has_bit`, k counts from the first again.
    fn bit(k: u16) -> Self
        ensures { value result ≡ 2 ^ (k % BITS) };

    fn has_bit(self, k: u16) -> bool
        ensures { result ≡ eqb (value self / 2 ^ (k % BITS) % 2) 1 };

    fn or(self, other: Self) -> Self
        ensures { value result ≡ bit_or (value self) (value other) };

    ghost octet_or_more: { 8 ≤ BITS };

    ghost as_numbers: { Elements value values };
}

// An impl for each width, written out, as of `Number`.
impl Element for u8 {
    const BITS: u16 = 8;

    ghost BITS = { 8 };

    ghost value = { λ x. x };

    ghost values = { λ l. l };

    ghost octet_or_more = { lit≤ tt };

    ghost as_numbers = { plain };

    fn bit(k: u16) -> u8 {
        1u8 << (k % 8)
    }

    fn has_bit(self, k: u16) -> bool {
        self >> (k % 8) & 1u8 == 1
    }

    fn or(self, other: u8) -> u8 {
        self | other
    }
}

impl Element for u64 {
    const BITS: u16 = 64;

    ghost BITS = { 64 };

    ghost value = { λ x. x };

    ghost values = { λ l. l };

    ghost octet_or_more = { lit≤ tt };

    ghost as_numbers = { plain };

    fn bit(k: u16) -> u64 {
        1u64 << (k % 64)
    }

    fn has_bit(self, k: u16) -> bool {
        self >> (k % 64) & 1u64 == 1
    }

    fn or(self, other: u64) -> u64 {
        self | other
    }
}

// B-3: sets a position.
fn set<E: Element>(filter: &mut [E], p: u16)
    ensures { E.values filter.new ≡ add_position_in E.BITS (E.values filter.old) p }
{
    let at = (p / E::BITS) as usize;
    if at < filter.len() {
        filter[at] = filter[at].or(E::bit(p));
    }
}

// B-3: whether a position is set.
fn is_set<E: Element>(filter: &[E], p: u16) -> bool
    ensures { result ≡ is_set_in E.BITS (E.values filter.now) p }
{
    match filter.get((p / E::BITS) as usize) {
        Some(element) => element.has_bit(p),
        None => false,
    }
}

// B-4: sets each of the positions.
pub fn add<E: Element>(filter: &mut [E], positions: [u16; 10])
    ensures { E.values filter.new ≡ add_all_in E.BITS (E.values filter.old) positions }
{
    for p in positions {
        set(filter, p);
    }
}

// B-7: whether all of the positions are set.
pub fn contains<E: Element>(filter: &[E], positions: [u16; 10]) -> bool
    ensures { result ≡ contains_all_in E.BITS (E.values filter.now) positions }
{
    positions.iter().all(|p| is_set(filter, *p))
}

// B-5: sets each position that is set in `other`. By an index: of what a zip of `iter_mut` writes a proof of this contract knows nothing.
pub fn union<E: Element>(into: &mut [E], other: &[E])
    ensures { E.values into.new ≡ union (E.values into.old) (E.values other.now) }
{
    let end = into.len().min(other.len());
    for i in 0..end {
        into[i] = into[i].or(other[i]);
    }
}
