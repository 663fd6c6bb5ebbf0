// The calls that change an output buffer, whose octets stand in the line: write, add, union and publish.
use crate::Query;
use header::edition::edition_of;
use header::{ClientCookie, Header, ServerCookie};
use print::Row;
use std::io;
use std::io::Write;
use words::line::{bits_at, i8_at, i16_at, u64_at, word_of};
use words::octet_word::octets_of;

// The header of a line's words after the edition; the timescale offset is the last.
fn header_of(line: &[u8]) -> Header {
    Header {
        edition: edition_of(u64::from(bits_at::<u8>(line, 1))),
        leap: bits_at(line, 2),
        mode: bits_at(line, 3),
        stratum: bits_at(line, 4),
        poll: i8_at(line, 5),
        precision: i8_at(line, 6),
        timescale: bits_at(line, 7),
        era: bits_at(line, 8),
        timescale_offset: i16_at(line, 16),
        flags: bits_at(line, 9),
        root_delay: bits_at(line, 10),
        root_dispersion: bits_at(line, 11),
        server_cookie: ServerCookie(u64_at(line, 12)),
        client_cookie: ClientCookie(u64_at(line, 13)),
        receive: u64_at(line, 14),
        transmit: u64_at(line, 15),
    }
}

// The call on the octets of its letter O, which are printed afterwards.
pub(crate) fn make<W: Write>(
    row: Row<'_, W>,
    query: Query,
    line: &[u8],
    octets: &[u8],
    table: &[u64],
) -> io::Result<()> {
    let mut room = [0u8; 4096];
    let output = octets_of(word_of(line, row.row, b'O'), &mut room);
    let outcome = match query {
        Query::Write => header::named::write(bits_at(line, 1), header_of(line), output),
        Query::Add => filter::add_id(output, octets),
        Query::Union => filter::unite(output, octets),
        _ => client::publish(table, bits_at(line, 1), octets, output),
    };
    row.result(outcome, output)
}
