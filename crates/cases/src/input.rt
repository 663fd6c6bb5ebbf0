// The input as lines: each is gathered octet by octet and run when it ends.
use crate::calls;
use print::Row;
use source::{Program, Source};
use std::io;
use std::io::{Read, Write};
use text::gather::{Line, gather};
use text::{part, piece};

// How much of the input is read at a time at most, and the longest line.
const ROOM: usize = 65536;

// The program: the rows of the calls that its lines may be.
#[derive(Drop)]
pub(crate) struct Cases<'a> {
    pub(crate) rows: &'a [u8],
}

// What lines are run on: the rows of calls, the client's table and what keeps the responder's store; and where results go.
#[derive(Drop)]
struct Run<'a, 'b, W: Write> {
    to: &'a mut W,
    rows: &'b [u8],
    table: [u64; 1296],
    kept: [u8; 4098],
}

// Reads more of the input if all that was read has been gathered. The end of the input ends a line. A read that fails is
// said; it ends the input, and the line that it cut is not run.
fn refill<R: Read, E: Write>(
    source: &mut Source<'_, R, E>,
    text: &mut [u8],
    state: Line,
) -> io::Result<Line> {
    if state.at < state.count {
        return Ok(state);
    }
    let (count, ended) = match source.file.read(text) {
        Ok(got) => (got, got == 0),
        Err(error) => {
            print::failure(source.errors, source.name, error)?;
            (0, false)
        }
    };
    Ok(Line {
        ended,
        count,
        at: 0,
        last: count == 0,
        ..state
    })
}

impl<W: Write> Run<'_, '_, W> {
    // Runs the line if it has ended.
    fn finish(&mut self, line: &[u8], state: Line) -> io::Result<Line> {
        if !state.ended {
            return Ok(state);
        }
        if let Some(call) = rows::call_of(self.to, self.rows, line, state.size, state.number)? {
            let row = Row {
                to: self.to,
                row: piece(self.rows, call, b'\n'),
            };
            let words = part(line, 0, state.size);
            calls::run(row, call, words, &mut self.table, &mut self.kept)?;
        }
        Ok(Line {
            number: state.number.wrapping_add(1),
            size: 0,
            comment: false,
            ended: false,
            ..state
        })
    }
}

impl Program for Cases<'_> {
    const NAME: &'static str = "cases";

    // Reads the source to its end. Nothing says that the input ends: so the loop has a bound, which no run uses up.
    fn run<R: Read, E: Write, W: Write>(
        &self,
        source: &mut Source<'_, R, E>,
        to: &mut W,
    ) -> io::Result<()> {
        let mut text = [0u8; ROOM];
        let mut line = [0u8; ROOM];
        let mut run = Run {
            to,
            rows: self.rows,
            table: [0; 1296],
            kept: [0; 4098],
        };
        let mut state = Line {
            number: 1,
            size: 0,
            comment: false,
            ended: false,
            count: 0,
            at: 0,
            last: false,
        };
        for _ in 0..u64::MAX {
            if state.last {
                break;
            }
            state = refill(source, &mut text, state)?;
            state = gather(part(&text, 0, state.count), state, &mut line);
            state = run.finish(&line, state)?;
        }
        Ok(())
    }
}
