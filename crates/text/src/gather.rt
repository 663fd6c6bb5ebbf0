// A line gathered from the pieces of a text that is read bit by bit.
ghost use Rattle.std.specs.Prelude.{◌≡◌};
ghost use Rattle.text.specs.Gather.{taken_of, gathered};

use crate::{find, part};

// The line that is being gathered: its number from 1 on, its length so far, whether its comment has begun, and
// whether it has ended; how much of the input was read last, and how far it was gathered; and whether the input
// has ended. The line's length may go past its buffer: it is then too long.
#[derive(Clone, Copy)]
pub struct Line {
    pub number: u64,
    pub size: usize,
    pub comment: bool,
    pub ended: bool,
    pub count: usize,
    pub at: usize,
    pub last: bool,
}

// How many octets go to the line: those up to `stop`, unless its comment has begun.
#[tactic(auto, unfolding(crate::specs::Gather::taken_of))]
fn taken(text: &[u8], at: usize, stop: usize, comment: bool) -> usize
    ensures { result ≡ taken_of text.now at stop comment }
{
    if comment {
        0
    } else {
        part(text, at, stop).len()
    }
}

// Gathers what was read, up to the line's end or its comment. A piece that has no room counts, and is not kept.
#[tactic(auto, unfolding(crate::specs::Gather::gathered, crate::specs::Gather::gathered_to))]
pub fn gather(text: &[u8], state: Line, line: &mut [u8]) -> Line
    ensures { (result, line.new) ≡ gathered text.now state line.old }
{
    let end = find(text, state.at, b'\n', true);
    let stop = find(part(text, 0, end), state.at, b'#', true);
    let n = taken(text, state.at, stop, state.comment);
    octets::part::copy(line, state.size, text, state.at, n);
    Line {
        size: state.size.wrapping_add(n),
        comment: state.comment | (stop < end),
        ended: state.ended | (end < text.len()),
        at: end + 1,
        ..state
    }
}
