// The result line of a response.
use client::Measured;
use print::Row;
use refusal::Refusal;
use std::io;
use std::io::Write;

pub(crate) fn received<W: Write>(
    row: Row<'_, W>,
    received: Result<Measured, Refusal>,
) -> io::Result<()> {
    row.answered(received.map(values), b"")
}

// What an accepted response prints after its refusal 0.
fn values(measured: Measured) -> [u64; 5] {
    let chunk = u64::from(measured.chunk.number());
    match measured.measurement {
        Ok(m) => [0, 0, chunk, m.offset.cast_unsigned(), m.delay],
        Err(why) => [0, u64::from(why.number()), chunk, 0, 0],
    }
}
