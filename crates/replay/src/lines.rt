// The line of a record.
use c_structs::replayed::Replayed;
use print::Row;
use std::io;
use std::io::Write;
use text::{part, piece};

// A call that was made, by its kind. The rows have the forms of the crate print; `out` is what was lent.
// The C interface's struct and its numbers: the program replays as C does.
fn called<W: Write>(to: &mut W, number: u64, r: Replayed, out: &[u8]) -> io::Result<()> {
    let rows = b"-\n\
        open - %d\n\
        poll - %r %d %o\n\
        sent - %d\n\
        receive - %r judgement=%d chunk=%d offset=%i delay=%d\n\
        close - %d\n";
    let row = Row {
        to,
        row: piece(rows, usize::from(r.kind), b'\n'),
    };
    let refusal = u64::from(r.refusal);
    match r.kind {
        2 => {
            let written = part(out, 0, usize::from(r.length));
            row.numbered(number, &[refusal, u64::from(r.length), 0], written)
        }
        4 => {
            let values = [
                refusal,
                u64::from(r.judgement),
                u64::from(r.chunk),
                r.offset.cast_unsigned(),
                r.delay,
            ];
            row.numbered(number, &values, b"")
        }
        _ => row.numbered(number, &[refusal], b""),
    }
}

// A call that was made, or what is wrong with the record; nothing at the end.
pub(crate) fn record<W: Write>(to: &mut W, number: u64, r: Replayed, out: &[u8]) -> io::Result<()> {
    let wrong = match r.state {
        0 => return Ok(()),
        1 => return called(to, number, r, out),
        2 => "wrong mark",
        3 => "wrong kind",
        4 => "wrong data length",
        _ => "cut",
    };
    print::text(to, format_args!("record {number}: {wrong}"))
}
