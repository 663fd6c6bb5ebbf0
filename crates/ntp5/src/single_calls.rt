// The calls on one datagram, one filter or the four times of an exchange.
ghost use Rattle.std.specs.Prelude.{◌≡◌};
ghost use Rattle.header.specs.Header.{read_named, written_named};
ghost use Rattle.chain.specs.Chain.{sound_refusal};
ghost use Rattle.filter_rules.specs.Calls.{add_id, unite};
ghost use Rattle.filter_weight.specs.Weighing.{weighing, numbers};
ghost use Rattle.measure.specs.Measure.{measurement};
ghost use Rattle.c_structs.specs.Numbers.{weight_numbers, measurement_numbers};
ghost use Rattle.c_structs.specs.Headers.{read_of, core_header};

use c_structs::answers::{Measurement, Weight};
use c_structs::headers::{Header, Read, core_header};
use refusal::outcome_number;

pub fn ntp5_header_read(edition: u8, datagram: &[u8], wanted_mode: u8) -> Read
    ensures { result ≡ read_of (read_named edition datagram.now wanted_mode) }
{
    Read::from(header::named::read(edition, datagram, wanted_mode))
}

pub fn ntp5_header_write(edition: u8, fields: Header, out: &mut [u8]) -> u8
    ensures { (result, out.new) ≡ written_named edition (core_header edition fields) out.old }
{
    let fields = core_header(edition, fields);
    outcome_number(header::named::write(edition, fields, out))
}

pub fn ntp5_sound(datagram: &[u8], wanted_mode: u8) -> u8
    ensures { result ≡ sound_refusal datagram.now wanted_mode }
{
    outcome_number(chain::sound(datagram, wanted_mode))
}

pub fn ntp5_filter_add(filter: &mut [u8], id: &[u8]) -> u8
    ensures { (result, filter.new) ≡ add_id filter.old id.now }
{
    outcome_number(filter::add_id(filter, id))
}

pub fn ntp5_filter_union(into: &mut [u8], other: &[u8]) -> u8
    ensures { (result, into.new) ≡ unite into.old other.now }
{
    outcome_number(filter::unite(into, other))
}

pub fn ntp5_filter_weight(filter: &[u8]) -> Weight
    ensures { weight_numbers result ≡ numbers (weighing filter.now) }
{
    Weight::from(filter_weight::weigh(filter))
}

pub fn ntp5_measure(t1: u64, t2: u64, t3: u64, t4: u64) -> Measurement
    ensures { measurement_numbers result ≡ measurement t1 t2 t3 t4 }
{
    Measurement::from(measure::measure(t1, t2, t3, t4))
}
