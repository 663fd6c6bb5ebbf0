// What a field of a request asks of a responder.
#![tactic(auto)]

ghost use Rattle.std.specs.Prelude.{◌≡◌};
ghost use Rattle.field_role.specs.Role.{is_answered, none_met, met_after, role_with, request_role};

use chain::cursor::Field;
use chain::kind::{FILTER_REQUEST, INFORMATION, NAME};
use octets::number;

// Which of the types that a responder answers were met already.
#[derive(Clone, Copy)]
pub struct Met {
    pub request: bool,
    pub information: bool,
    pub name: bool,
}

#[derive(Clone, Copy)]
pub enum Role {
    // A good filter request, F-14, with its offset; the field's data length is the number of octets asked.
    FilterRequest(u16),
    Information,
    DraftName,
    // F-16 to F-19: any other field.
    Unknown,
}

// Whether a responder answers fields of a type, so that one test skips a field of any other.
pub fn is_answered(kind: u16) -> bool
    ensures { result ≡ is_answered kind }
{
    matches!(kind, FILTER_REQUEST | INFORMATION | NAME)
}

pub fn none_met() -> Met
    ensures { result ≡ none_met }
{
    Met {
        request: false,
        information: false,
        name: false,
    }
}

// What was met once a field of a type has been passed.
pub fn met_after(met: Met, kind: u16) -> Met
    ensures { result ≡ met_after met kind }
{
    Met {
        request: met.request | (kind == FILTER_REQUEST),
        information: met.information | (kind == INFORMATION),
        name: met.name | (kind == NAME),
    }
}

// What a field of a datagram asks, given what was met before it.
#[tactic(auto, unfolding(crate::specs::Role::role_given))]
pub fn role_of(datagram: &[u8], field: Field, met: Met) -> Role
    ensures { result ≡ role_with datagram.now field met }
{
    match field.kind {
        FILTER_REQUEST if !met.request => request(number::get(datagram, field.start), field.size),
        INFORMATION if !met.information && field.size == 4 => Role::Information,
        NAME if !met.name => Role::DraftName,
        _ => Role::Unknown,
    }
}

// A filter request of n data octets at an offset, good or not.
fn request(offset: u16, n: usize) -> Role
    ensures { result ≡ request_role offset n }
{
    if n % 4 == 0 && 4 <= n && n <= 512 && offset as usize + n <= 512 {
        Role::FilterRequest(offset)
    } else {
        Role::Unknown
    }
}
