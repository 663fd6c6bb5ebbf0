// The calls of a case file that change the client's table: each is made with the values of a line's words, and its result
// line printed.
#![tactic(auto)]

mod answers;

ghost use Rattle.std.specs.Prelude.{◌≡◌, [], ℕ, List};
ghost use Rattle.refusal.specs.Refusal.{outcome_number};
ghost use Rattle.client_rules.specs.Call.{plain_answer};
ghost use Rattle.client_rules.specs.Numbers.{step_numbers};
ghost use Rattle.client.specs.Answers.{is_interleaved};
ghost use Rattle.changes.specs.Change.{interleaved_at, poll_of, receive_of, change_of, table_after};
ghost use Rattle.changes.specs.Rows.{row_number, change_at};

use client::Mode;
use header::ClientCookie;
use print::Row;
use refusal::Refusal;
use std::io;
use std::io::Write;
use text::piece;
use words::line::{bits_at, i8_at, u64_at};
use words::octet_word::octets_of;

#[derive(Clone, Copy)]
pub enum Change {
    Clear,
    Open,
    Close,
    Poll,
    Sent,
    Receive,
}

impl Change {
    // The call of the row of this number, from 0 on, if it is one of these.
    // No `TryFrom`: another number is another library's call and no error.
    pub fn at(row: usize) -> Option<Change>
        ensures { result ≡ change_at row }
    {
        match row {
            7 => Some(Change::Clear),
            8 => Some(Change::Open),
            9 => Some(Change::Close),
            10 => Some(Change::Poll),
            11 => Some(Change::Sent),
            12 => Some(Change::Receive),
            _ => None,
        }
    }
}

// The call of any number, as `table_after` has it.
impl From<usize> for Change {
    ghost from_gives = { λ call change. (line table : List ℕ) → table_after (row_number change) line table ≡ table_after call line table };

    fn from(call: usize) -> Change {
        Change::at(call).unwrap_or(Change::Sent)
    }
}

fn mode_at(line: &[u8], word: usize) -> Mode
    ensures { is_interleaved result ≡ interleaved_at line.now word }
{
    if text::same(piece(line, word, b' '), b"interleaved") {
        Mode::Interleaved
    } else {
        Mode::Basic
    }
}

// The calls that answer a refusal or nothing. Any other is a send, as `change_of` has it.
fn make(change: Change, line: &[u8], table: &mut [u64]) -> Result<(), Refusal>
    ensures { (plain_answer (outcome_number result) [], table.new) ≡ step_numbers (change_of (row_number change) line.now) table.old }
{
    let first = bits_at(line, 1);
    match change {
        Change::Clear => client::clear(table),
        Change::Open => client::open(
            table,
            first,
            bits_at(line, 2),
            bits_at(line, 3),
            bits_at(line, 4),
        ),
        Change::Close => client::close(table, first),
        _ => client::sent(table, first, u64_at(line, 2)),
    }
}

// poll A COOKIE EXPONENT MODE OUTPUT
fn poll<W: Write>(row: Row<'_, W>, line: &[u8], table: &mut [u64]) -> io::Result<()>
    ensures { table.new ≡ (step_numbers (poll_of line.now) table.old).1 }
{
    let mut room = [0u8; 4096];
    let output = octets_of(piece(line, 5, b' '), &mut room);
    let polled = client::poll(
        table,
        bits_at(line, 1),
        ClientCookie(u64_at(line, 2)),
        i8_at(line, 3),
        mode_at(line, 4),
        output,
    );
    row.answered(polled.map(|length| [0, u64::from(length), 0]), output)
}

// receive A T4 OCTETS
fn receive<W: Write>(row: Row<'_, W>, line: &[u8], table: &mut [u64]) -> io::Result<()>
    ensures { table.new ≡ (step_numbers (receive_of line.now) table.old).1 }
{
    let mut room = [0u8; 4096];
    let datagram = octets_of(piece(line, 3, b' '), &mut room);
    let received = client::receive(table, bits_at(line, 1), datagram, u64_at(line, 2));
    answers::received(row, received)
}

// The call, and its result. What is printed is not stated; where it can't be, the call is made all the same.
pub fn run<W: Write>(
    row: Row<'_, W>,
    change: Change,
    line: &[u8],
    table: &mut [u64],
) -> io::Result<()>
    ensures { table.new ≡ table_after (row_number change) line.now table.old }
{
    match change {
        Change::Poll => poll(row, line, table),
        Change::Receive => receive(row, line, table),
        _ => row.result(make(change, line, table), b""),
    }
}
