// W208-14: replays the trace in the file that its argument names or from standard input on a cleared table, and prints a line for each
// record: see docs/REPLAY.md.
#![tactic(auto)]

mod input;
mod lines;

use input::Replay;
use std::io;

fn main(rt: HostRuntime) -> io::Result<()> {
    source::start(&rt, &Replay)
}
