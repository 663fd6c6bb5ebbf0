// The calls of a header where the edition is named by its number: 6 where it names none, W204-1.
ghost use Rattle.std.specs.Prelude.{◌≡◌};
ghost use Rattle.refusal.specs.Refusal.{outcome_number, by_number};
ghost use Rattle.header.specs.Header.{read_named, written_named};

use crate::Header;
use crate::edition::Edition;
use refusal::Refusal;

// Beside the call on an `Edition`: it promises 6 of a number that names none (`read_named`).
#[tactic(auto, using(crate::proofs::Editions::by_none), unfolding(crate::specs::Header::read_named))]
pub fn read(edition: u8, datagram: &[u8], wanted_mode: u8) -> Result<Header, Refusal>
    ensures { by_number result ≡ read_named edition datagram.now wanted_mode }
{
    let edition = Edition::try_from(edition)?;
    crate::read(edition, datagram, wanted_mode)
}

// The header is one of that edition.
#[tactic(auto, using(crate::proofs::Editions::by_none), unfolding(crate::specs::Header::written_named))]
pub fn write(edition: u8, header: Header, out: &mut [u8]) -> Result<(), Refusal>
    ensures { (outcome_number result, out.new) ≡ written_named edition header out.old }
{
    Edition::try_from(edition)?;
    crate::write(header, out)
}
