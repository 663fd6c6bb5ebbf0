// The five kinds of records, W208-3.
ghost use Rattle.std.specs.Prelude.{◌≡◌};
ghost use Rattle.trace_rules.specs.Record.{data_size};
ghost use Rattle.trace.specs.Kind.{kind_number, named_kind};

use trace_rules::Fault;

#[derive(Clone, Copy)]
pub(crate) enum Kind {
    Open,
    Poll,
    Sent,
    Receive,
    Close,
}

// The kind that a number names; a fault where it names none.
impl TryFrom<u8> for Kind {
    type Error = Fault;

    ghost try_from_gives = { λ number r. r ≡ named_kind number };

    fn try_from(number: u8) -> Result<Self, Fault> {
        match number {
            1 => Ok(Kind::Open),
            2 => Ok(Kind::Poll),
            3 => Ok(Kind::Sent),
            4 => Ok(Kind::Receive),
            5 => Ok(Kind::Close),
            _ => Err(Fault::Kind),
        }
    }
}

impl Kind {
    // W208-4: how many octets the data has, where a head says `size`.
    pub(crate) fn data_size(self, size: usize) -> usize
        ensures { result ≡ data_size (kind_number self) size }
    {
        match self {
            Kind::Open => 4,
            Kind::Poll => 10,
            Kind::Receive => size,
            Kind::Sent | Kind::Close => 0,
        }
    }
}
