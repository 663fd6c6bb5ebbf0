// The calls of a case file on the responder's store: each is made with the values of a line's words, and its result line
// printed. `kept` is the store's length, two octets, and then its octets: `kept_after` speaks of them as of one list.
#![tactic(auto)]

mod answering;

ghost use Rattle.std.specs.Prelude.{◌≡◌, ◌+◌, ◌*◌, ◌≤◌, length, ℕ, List};
ghost use Rattle.refusal.specs.Refusal.{outcome_number};
ghost use Rattle.words.specs.Line.{bits_at, octets_at};
ghost use Rattle.actions.specs.Kept.{length_of, store_reported, kept_cleared, kept_lent, kept_after};
ghost use Rattle.actions.specs.Rows.{row_number, action_at};

use header::ServerCookie;
use octets::{number, part};
use print::Row;
use refusal::Refusal;
use std::io;
use std::io::Write;
use text::piece;
use words::line::{bits_at, u64_at};
use words::octet_word::octets_of;

#[derive(Clone, Copy)]
pub enum Action {
    Store,
    Lend,
    Report,
    Answer,
}

impl Action {
    // The call of the row of this number, from 0 on, if it is one of these.
    // No `TryFrom`: another number is another library's call and no error.
    pub fn at(row: usize) -> Option<Action>
        ensures { result ≡ action_at row }
    {
        match row {
            15 => Some(Action::Store),
            16 => Some(Action::Lend),
            17 => Some(Action::Report),
            18 => Some(Action::Answer),
            _ => None,
        }
    }
}

// The call of any number, as `kept_after` has it.
impl From<usize> for Action {
    ghost from_gives = { λ call action. (line kept : List ℕ) → kept_after (row_number action) line kept ≡ kept_after call line kept };

    fn from(call: usize) -> Action {
        Action::at(call).unwrap_or(Action::Answer)
    }
}

// Where the store ends.
fn end(kept: &[u8]) -> usize
    ensures { result ≡ length_of kept.now + 2 }
{
    usize::from(number::get::<u16>(kept, 0) % 4097) + 2
}

// store N
fn clear(line: &[u8], kept: &mut [u8]) -> Result<(), Refusal>
    requires { 4098 ≤ length kept.old }
    ensures { (outcome_number result, kept.new) ≡ kept_cleared (bits_at 8 line.now 1 * 16) kept.old }
{
    let n = usize::from(bits_at::<u8>(line, 1)) * 16;
    store::clear(&mut kept[2..n + 2])?;
    number::put(kept, 0, n as u16);
    Ok(())
}

// lend OCTETS
fn lend<W: Write>(row: Row<'_, W>, line: &[u8], kept: &mut [u8]) -> io::Result<()>
    ensures { kept.new ≡ kept_lent (octets_at line.now 1) kept.old }
{
    let mut room = [0u8; 4096];
    let octets = octets_of(piece(line, 1, b' '), &mut room);
    let n = octets.len() % 4097;
    number::put(kept, 0, n as u16);
    part::copy(kept, 2, octets, 0, n);
    row.line(&[0], octets)
}

// report COOKIE TIME
fn report<W: Write>(row: Row<'_, W>, line: &[u8], store: &mut [u8]) -> io::Result<()>
    ensures { store.new ≡ store_reported line.now store.old }
{
    let outcome = store::report(store, ServerCookie(u64_at(line, 1)), u64_at(line, 2));
    row.result(outcome, store)
}

// The call, and its result. What is printed is not stated; where it can't be, the call is made all the same. Octets too few for the
// longest store stay as they are.
pub fn run<W: Write>(
    row: Row<'_, W>,
    action: Action,
    line: &[u8],
    kept: &mut [u8],
) -> io::Result<()>
    ensures { kept.new ≡ kept_after (row_number action) line.now kept.old }
{
    if kept.len() < 4098 {
        return Ok(());
    }
    let end = end(kept);
    match action {
        Action::Store => row.result(clear(line, kept), b""),
        Action::Lend => lend(row, line, kept),
        Action::Report => report(row, line, &mut kept[2..end]),
        Action::Answer => answering::answer(row, line, &mut kept[2..end]),
    }
}
