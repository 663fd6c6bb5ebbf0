// The calls that have no output: header, weight, measure and verdict.
ghost use Rattle.std.specs.Prelude.{◌≡◌};
ghost use Rattle.std.specs.Int.{w64};
ghost use Rattle.std.proofs.Common.{of_z};

use client::Verdict;
use header::Header;
use header::edition::Edition;
use print::Row;
use std::io;
use std::io::Write;
use words::line::{bits_at, u64_at};

// A signed number as a value of a row: in two's complement of 64 bits.
fn signed(x: i64) -> u64
    ensures { result ≡ of_z w64 x }
{
    x.cast_unsigned()
}

// Every field of a header, after a 0. Edition 1 has one more, the timescale offset, and it stands last.
fn fields<W: Write>(row: Row<'_, W>, h: Header) -> io::Result<()> {
    let server = h.server_cookie;
    let client = h.client_cookie;
    let values = [
        0,
        u64::from(h.leap),
        u64::from(h.mode),
        u64::from(h.stratum),
        signed(i64::from(h.poll)),
        signed(i64::from(h.precision)),
        u64::from(h.timescale),
        u64::from(h.era),
        u64::from(h.flags),
        u64::from(h.root_delay),
        u64::from(h.root_dispersion),
        server.0,
        client.0,
        h.receive,
        h.transmit,
        signed(i64::from(h.timescale_offset)),
    ];
    match h.edition {
        Edition::One => row.line(&values, b""),
        Edition::Seven => row.line(&values[..15], b""),
    }
}

// header EDITION MODE OCTETS
pub(crate) fn header<W: Write>(row: Row<'_, W>, line: &[u8], datagram: &[u8]) -> io::Result<()> {
    match header::named::read(bits_at(line, 1), datagram, bits_at(line, 2)) {
        Err(refusal) => row.result(Err(refusal), b""),
        Ok(h) => fields(row, h),
    }
}

// weight FILTER
pub(crate) fn weight<W: Write>(row: Row<'_, W>, filter: &[u8]) -> io::Result<()> {
    let weight = filter_weight::weigh(filter);
    row.answered(weight.map(|w| [0, u64::from(w)]), b"")
}

// measure T1 T2 T3 T4; an exchange that has no measurement is judged 5.
pub(crate) fn measure<W: Write>(row: Row<'_, W>, line: &[u8]) -> io::Result<()> {
    match measure::measure(
        u64_at(line, 1),
        u64_at(line, 2),
        u64_at(line, 3),
        u64_at(line, 4),
    ) {
        Some(m) => row.line(&[0, signed(m.offset), m.delay], b""),
        None => row.line(&[5, 0, 0], b""),
    }
}

// verdict A ID
pub(crate) fn verdict<W: Write>(
    row: Row<'_, W>,
    line: &[u8],
    id: &[u8],
    table: &[u64],
) -> io::Result<()> {
    let verdict = client::loop_verdict(table, bits_at(line, 1), id);
    row.answered(verdict.map(|said| [0, verdict_number(said)]), b"")
}

fn verdict_number(verdict: Verdict) -> u64 {
    match verdict {
        Verdict::Incomplete => 1,
        Verdict::Loop => 2,
        Verdict::Clear => 3,
    }
}
