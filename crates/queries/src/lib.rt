// The calls of a case file that change nothing that they are lent: all but those on the client's table (crate changes) and on
// the store (crate actions). Each prints its result line. As in `print`, what is printed is not stated: a call that succeeds
// returns nothing, and every octet stays as it was.
#![tactic(auto)]

mod outputs;
mod views;

ghost use Rattle.std.specs.Prelude.{◌≡◌, IfOk};
ghost use Rattle.queries.specs.Rows.{query_at, query_for};

use print::Row;
use std::io;
use std::io::Write;
use words::line::{bits_at, word_of};
use words::octet_word::octets_of;

#[derive(Clone, Copy)]
pub enum Query {
    Header,
    Write,
    Sound,
    Add,
    Union,
    Weight,
    Measure,
    Verdict,
    Publish,
}

impl Query {
    // The call of the row of this number, from 0 on, if it is one of these.
    // No `TryFrom`: another number is another library's call and no error.
    pub fn at(row: usize) -> Option<Query>
        ensures { result ≡ query_at row }
    {
        match row {
            0 => Some(Query::Header),
            1 => Some(Query::Write),
            2 => Some(Query::Sound),
            3 => Some(Query::Add),
            4 => Some(Query::Union),
            5 => Some(Query::Weight),
            6 => Some(Query::Measure),
            13 => Some(Query::Verdict),
            14 => Some(Query::Publish),
            _ => None,
        }
    }
}

// The call of any number: the row's, and a verdict where it is that of no row.
impl From<usize> for Query {
    ghost from_gives = { λ call query. query ≡ query_for call };

    fn from(call: usize) -> Query {
        Query::at(call).unwrap_or(Query::Verdict)
    }
}

// The call, and its result. `table` is the client's.
pub fn run<W: Write>(row: Row<'_, W>, query: Query, line: &[u8], table: &[u64]) -> io::Result<()>
    ensures { IfOk result (λ r. r ≡ tt) }
{
    let mut room = [0u8; 4096];
    let octets = octets_of(word_of(line, row.row, b'I'), &mut room);
    match query {
        Query::Header => views::header(row, line, octets),
        Query::Sound => row.result(chain::sound(octets, bits_at(line, 1)), b""),
        Query::Weight => views::weight(row, octets),
        Query::Measure => views::measure(row, line),
        Query::Verdict => views::verdict(row, line, octets, table),
        _ => outputs::make(row, query, line, octets, table),
    }
}
