// answer EDITION REQUEST RECEIVE ESTIMATE FRESH, the server's values, FILTER INFORMATION OUTPUT
ghost use Rattle.std.specs.Prelude.{◌≡◌};
ghost use Rattle.refusal.specs.Refusal.{by_number};
ghost use Rattle.words.specs.Line.{bits_at, octets_at};
ghost use Rattle.responder_rules.specs.Answer.{given_as, outcome, answer_named};
ghost use Rattle.actions.specs.Given.{server_of, given_from};
ghost use Rattle.actions.specs.Kept.{store_answered};

use header::ServerCookie;
use print::Row;
use refusal::Refusal;
use responder::{Given, Server};
use std::io;
use std::io::Write;
use text::piece;
use words::line::{bits_at, i8_at, i16_at, u64_at};
use words::octet_word::octets_of;

fn server_of(line: &[u8]) -> Server
    ensures { result ≡ server_of line.now }
{
    Server {
        leap: bits_at(line, 6),
        stratum: bits_at(line, 7),
        poll: i8_at(line, 8),
        precision: i8_at(line, 9),
        timescale: bits_at(line, 10),
        era: bits_at(line, 11),
        timescale_offset: i16_at(line, 15),
        flags: bits_at(line, 12),
        root_delay: bits_at(line, 13),
        root_dispersion: bits_at(line, 14),
    }
}

// What the words of a line give the responder; the octets are those of three other words.
fn given_from<'a>(
    line: &[u8],
    request: &'a [u8],
    filter: &'a [u8],
    information: &'a [u8],
) -> Given<'a>
    ensures { given_as result ≡ given_from line.now request.now filter.now information.now }
{
    Given {
        request,
        receive: u64_at(line, 3),
        estimate: u64_at(line, 4),
        fresh_cookie: ServerCookie(u64_at(line, 5)),
        server: server_of(line),
        filter,
        information,
    }
}

// The call on the octets of the last word. What it answers is printed, so it is stated here: `answer_to` can't state it.
fn answer_into(
    line: &[u8],
    given: Given<'_>,
    output: &mut [u8],
    store: &mut [u8],
) -> Result<u16, Refusal>
    ensures { outcome (by_number result) output.new store.new
        ≡ answer_named (bits_at 8 line.now 1) (given_as given.entry) store.old output.old }
{
    responder::named::answer(store, bits_at(line, 1), given, output)
}

fn answer_to<W: Write>(
    row: Row<'_, W>,
    line: &[u8],
    given: Given<'_>,
    store: &mut [u8],
) -> io::Result<()>
    ensures { store.new ≡ (answer_named (bits_at 8 line.now 1) (given_as given.entry) store.old (octets_at line.now 18)).store }
{
    let mut room = [0u8; 4096];
    let output = octets_of(piece(line, 18, b' '), &mut room);
    let answered = answer_into(line, given, output, store);
    row.answered(answered.map(|length| [0, u64::from(length), 0]), output)
}

// What an answer is given; the output has a function of its own.
pub(crate) fn answer<W: Write>(row: Row<'_, W>, line: &[u8], store: &mut [u8]) -> io::Result<()>
    ensures { store.new ≡ store_answered line.now store.old }
{
    let mut first = [0u8; 4096];
    let mut second = [0u8; 4096];
    let mut third = [0u8; 4096];
    let given = given_from(
        line,
        octets_of(piece(line, 2, b' '), &mut first),
        octets_of(piece(line, 16, b' '), &mut second),
        octets_of(piece(line, 17, b' '), &mut third),
    );
    answer_to(row, line, given, store)
}
