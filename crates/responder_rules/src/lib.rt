// The answer, R-4 to R-20: specs/ defines it and says what holds of it, proofs/ that it does. There is no code, only the answer's types.
#![tactic(auto)]

use header::ServerCookie;

// R-4: what a server says of its clock in every answer.
// C's ntp5_server: so it is no part of `Header`, whose fields it repeats.
#[repr(C)]
#[derive(Clone, Copy)]
pub struct Server {
    pub leap: u8,
    pub stratum: u8,
    pub poll: i8,
    pub precision: i8,
    pub timescale: u8,
    pub era: u8,
    // W204-13: sent in edition 1 alone.
    pub timescale_offset: i16,
    pub flags: u16,
    pub root_delay: u32,
    pub root_dispersion: u32,
}

// R-4: what an answer takes beside the edition, the store and the output. `fresh_cookie` is looked at only where the request wants an
// interleaved answer (R-7, R-8).
// Without the edition, which some callers name by a number.
#[derive(Clone, Copy)]
pub struct Given<'a> {
    pub request: &'a [u8],
    pub receive: u64,
    pub estimate: u64,
    pub fresh_cookie: ServerCookie,
    pub server: Server,
    pub filter: &'a [u8],
    pub information: &'a [u8],
}
