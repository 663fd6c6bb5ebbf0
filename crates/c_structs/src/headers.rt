// A header as C has it: its cookies are plain numbers, which the core keeps in two types, and its edition is an argument of the calls.
ghost use Rattle.std.specs.Prelude.{◌≡◌};
ghost use Rattle.refusal.specs.Refusal.{result_by};
ghost use Rattle.c_structs.specs.Headers.{of_header, read_of, core_header};

use header::edition::edition_of;
use header::{ClientCookie, ServerCookie};
use refusal::RefusedBy;

#[repr(C)]
#[derive(Clone, Copy, Default)]
pub struct Header {
    pub leap: u8,
    pub mode: u8,
    pub stratum: u8,
    pub poll: i8,
    pub precision: i8,
    pub timescale: u8,
    pub era: u8,
    pub timescale_offset: i16,
    pub flags: u16,
    pub root_delay: u32,
    pub root_dispersion: u32,
    pub server_cookie: u64,
    pub client_cookie: u64,
    pub receive: u64,
    pub transmit: u64,
}

#[repr(C)]
#[derive(Clone, Copy)]
pub struct Read {
    pub refusal: u8,
    pub header: Header,
}

impl From<header::Header> for Header {
    ghost from_gives = { λ fields h. h ≡ of_header fields };

    fn from(fields: header::Header) -> Header {
        Header {
            leap: fields.leap,
            mode: fields.mode,
            stratum: fields.stratum,
            poll: fields.poll,
            precision: fields.precision,
            timescale: fields.timescale,
            era: fields.era,
            timescale_offset: fields.timescale_offset,
            flags: fields.flags,
            root_delay: fields.root_delay,
            root_dispersion: fields.root_dispersion,
            server_cookie: fields.server_cookie.0,
            client_cookie: fields.client_cookie.0,
            receive: fields.receive,
            transmit: fields.transmit,
        }
    }
}

// N-27: a refusal has a header of zeros.
impl<R: RefusedBy> From<Result<header::Header, R>> for Read {
    ghost from_gives = { λ said r. r ≡ read_of (result_by R.as_number said) };

    fn from(said: Result<header::Header, R>) -> Read {
        match said {
            Ok(fields) => Read {
                refusal: 0,
                header: Header::from(fields),
            },
            Err(refusal) => Read {
                refusal: refusal.number(),
                header: Header::default(),
            },
        }
    }
}

// The edition is named by its number.
// No `From`: the edition is an argument beside.
pub fn core_header(edition: u8, fields: Header) -> header::Header
    ensures { result ≡ core_header edition fields }
{
    header::Header {
        edition: edition_of(u64::from(edition)),
        leap: fields.leap,
        mode: fields.mode,
        stratum: fields.stratum,
        poll: fields.poll,
        precision: fields.precision,
        timescale: fields.timescale,
        era: fields.era,
        timescale_offset: fields.timescale_offset,
        flags: fields.flags,
        root_delay: fields.root_delay,
        root_dispersion: fields.root_dispersion,
        server_cookie: ServerCookie(fields.server_cookie),
        client_cookie: ClientCookie(fields.client_cookie),
        receive: fields.receive,
        transmit: fields.transmit,
    }
}
