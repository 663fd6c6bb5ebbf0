// S-5: reads calls, one a line, from the file that its argument names or from standard input, and prints a result line for each:
// see docs/CASES.md.
#![tactic(auto)]

mod calls;
mod input;

use input::Cases;
use std::io;

// The rows of the calls, with each word's letter (crate rows) and the form of the result line (crate print).
fn main(rt: HostRuntime) -> io::Result<()> {
    let rows =
        b"header bbI %r leap=%d mode=%d stratum=%d poll=%i precision=%i timescale=%d era=%d flags=0x%h \
        root_delay=0x%w root_dispersion=0x%w server_cookie=0x%q client_cookie=0x%q receive=0x%q transmit=0x%q timescale_offset=%i\n\
        write bbbbssbbhwwqqqqtO %d %o\n\
        sound bI %d\n\
        add OI %d %o\n\
        union OI %d %o\n\
        weight I %r %d\n\
        measure qqqq %d %i %d\n\
        clear - %d\n\
        open bbbh %d\n\
        close b %d\n\
        poll bqsmO %r %d %o\n\
        sent bq %d\n\
        receive bqI %r judgement=%d chunk=%d offset=%i delay=%d\n\
        verdict bI %r %d\n\
        publish hIO %r %o\n\
        store b %d\n\
        lend I %o\n\
        report qq %d %o\n\
        answer bIqqqbbssbbhwwtIIO %r %d %o\n";
    source::start(&rt, &Cases { rows })
}
