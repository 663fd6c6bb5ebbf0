// The input as records: each is replayed once it is there whole.
use crate::lines;
use ntp5::trace_calls::ntp5_replay;
use source::{Program, Source};
use std::io;
use std::io::{Read, Write};
use window::Window;

// The program.
#[derive(Drop)]
pub(crate) struct Replay;

// The record that comes next: its number, from 1 on (W208-11), and where it stands in the window; whether more of the input is
// wanted; whether the input has ended, and whether the replay has.
#[derive(Clone, Copy)]
struct State {
    number: u64,
    at: usize,
    wanting: bool,
    ended: bool,
    last: bool,
}

// Reads into the window behind what it holds. A read that fails is said, and is none.
fn read_on<R: Read, E: Write>(
    source: &mut Source<'_, R, E>,
    window: &mut Window,
) -> io::Result<Option<usize>> {
    let Some(room) = window.octets.get_mut(window.count..) else {
        return Ok(Some(0));
    };
    match source.file.read(room) {
        Ok(got) => Ok(Some(got)),
        Err(error) => {
            print::failure(source.errors, source.name, error)?;
            Ok(None)
        }
    }
}

// Where more is wanted, moves what is not yet replayed to the start of the window and reads on behind it. A read that fails
// ends the replay, and the record that it cut is not told.
fn refill<R: Read, E: Write>(
    source: &mut Source<'_, R, E>,
    window: &mut Window,
    state: State,
) -> io::Result<State> {
    if !state.wanting {
        return Ok(state);
    }
    window.keep(state.at);
    let read = read_on(source, window)?;
    let more = read.unwrap_or(0);
    window.count = window.count.wrapping_add(more);
    Ok(State {
        at: 0,
        wanting: false,
        ended: more == 0,
        last: read.is_none(),
        ..state
    })
}

// Replays the record that comes next and prints its line. Where the window ends in it, or before it, more is wanted first, as long as
// there is more: what is wrong with a record in the window is wrong with it, whatever follows.
fn step<W: Write>(
    to: &mut W,
    window: &[u8],
    state: State,
    table: &mut [u64],
    out: &mut [u8],
) -> io::Result<State> {
    if state.last {
        return Ok(state);
    }
    let record = ntp5_replay(table, window, state.at, out);
    let wanting = !state.ended & ((record.state == 0) | (record.state == 5));
    let mut number = state.number;
    if !wanting {
        lines::record(to, number, record, out)?;
        number = number.wrapping_add(1);
    }
    Ok(State {
        number,
        at: record.next,
        wanting,
        last: (record.state != 1) & !wanting,
        ..state
    })
}

impl Program for Replay {
    const NAME: &'static str = "replay";

    // Replays the source to its end or its first wrong record. Nothing says that the input ends: so the loop has a bound, which no
    // run uses up.
    fn run<R: Read, E: Write, W: Write>(
        &self,
        source: &mut Source<'_, R, E>,
        to: &mut W,
    ) -> io::Result<()> {
        let mut window = Window::empty();
        let mut table = [0u64; 1296];
        let mut out = [0u8; 1280];
        let mut state = State {
            number: 1,
            at: 0,
            wanting: true,
            ended: false,
            last: false,
        };
        for _ in 0..u64::MAX {
            if state.last {
                break;
            }
            state = refill(source, &mut window, state)?;
            state = step(to, window.held(), state, &mut table, &mut out)?;
        }
        Ok(())
    }
}
