// The fields of an answer, R-16 to R-20: one pass over those of the request, which edition 1 leaves out (W204-14), then the padding.
#![tactic(auto)]

ghost use Rattle.std.specs.Prelude.{◌≡◌, ◌+◌, ◌-◌, ◌%◌, ◌≤◌, ◌++◌, length, take};
ghost use Rattle.chain.specs.Chain.{padded};
ghost use Rattle.chain.specs.Content.{chain_octets};
ghost use Rattle.chain.specs.Field.{fields_of, fields_in};
ghost use Rattle.field_role.specs.Role.{SizeAllowed};
ghost use Rattle.field_write.specs.Write.{WrittenAt};
ghost use Rattle.responder_rules.specs.Answer.{answer_to, padding_of};
ghost use Rattle.answer_fields.specs.Fields.{fields_written};
ghost use Rattle.answer_fields.specs.Pass.{Parts, Sizes, AnswersWritten};

use chain::cursor::{Cursor, Field, Step};
use chain::{DRAFT_NAME, kind};
use field_role::Role;
use header::edition::Edition;
use responder_rules::Given;

// Writes what answers a field by its role, and answers the place after it.
// The place goes on by hand: `WrittenAt` has it, and a writer over two calls is no shorter.
fn answer_to(role: Role, field: Field, given: Given<'_>, out: &mut [u8], at: usize) -> usize
    requires { SizeAllowed field role × Parts given.filter.now given.information.now × (at + (4 + padded field.size) ≤ length out.old) }
    ensures { WrittenAt out.old at (chain_octets (answer_to given.entry.filter.now given.entry.information.now field role)) result out.new }
{
    let n = field.size;
    match role {
        Role::FilterRequest(offset) => {
            let from = offset as usize;
            let part = &given.filter[from..from + n];
            field_write::put(out, at, kind::FILTER_RESPONSE, part, 0)
        }
        Role::Information => field_write::put(out, at, kind::INFORMATION, given.information, 0),
        Role::DraftName => {
            // R-19: as many octets of our name as the request's has, if there are so many
            let k = n.min(27);
            field_write::put(out, at, kind::NAME, &DRAFT_NAME[..k], 0)
        }
        Role::Unknown => at,
    }
}

// Writes the answers to the request's fields after the header, and answers the place after them. A loop, so that many fields take no more
// stack than one.
#[tactic(auto, using(chain::proofs::Steps::reached))]
fn answers(given: Given<'_>, out: &mut [u8]) -> usize
    requires { Sizes given.request.now given.filter.now given.information.now out.old }
    ensures { AnswersWritten given.entry.request.now given.entry.filter.now given.entry.information.now (fields_of given.entry.request.now) out.old result out.new }
{
    let mut cursor = Cursor { at: 48 };
    let mut met = field_role::none_met();
    let mut at = 48;
    // By the cursor (G-4): an iterator over it, with what it yields, is longer than the loops that would use it.
    while let Step::Found(field, next) = cursor.step(given.request) {
        if field_role::is_answered(field.kind) {
            let role = field_role::role_of(given.request, field, met);
            at = answer_to(role, field, given, out, at);
            met = field_role::met_after(met, field.kind);
        }
        cursor = next;
    }
    at
}

// W204-14: the answers to the fields that the edition looks at; in edition 1 there is none.
fn answers_in(edition: Edition, given: Given<'_>, out: &mut [u8]) -> usize
    requires { Sizes given.request.now given.filter.now given.information.now out.old }
    ensures { AnswersWritten given.entry.request.now given.entry.filter.now given.entry.information.now (fields_in edition given.entry.request.now) out.old result out.new }
{
    match edition {
        Edition::One => 48,
        Edition::Seven => answers(given, out),
    }
}

// R-20: fills what is left.
#[tactic(auto, using(crate::proofs::Writing::padding_none))]
fn pad(out: &mut [u8], at: usize)
    requires { (at ≤ length out.old) × (length out.old ≤ 1280) × ((length out.old - at) % 4 ≡ 0) }
    ensures { out.new ≡ take at out.old ++ chain_octets (padding_of (length out.old - at)) }
{
    let n = out.len();
    if at < n {
        field_write::put(out, at, kind::PADDING, &[], n - at - 4);
    }
}

// Writes what answers a request's fields after the 48 octets of the header, up to the request's length. Sizes that are wrong leave `out`.
#[tactic(auto, unfolding(crate::specs::Fields::fields_written))]
pub fn write(edition: Edition, given: Given<'_>, out: &mut [u8])
    ensures { out.new ≡ fields_written edition given.entry.request.now given.entry.filter.now given.entry.information.now out.old }
{
    let n = given.request.len();
    if (given.filter.len() != 512)
        | (given.information.len() != 4)
        | ((n < 48) | (1280 < n) | (n % 4 != 0))
        | (out.len() != n)
    {
        return;
    }
    let at = answers_in(edition, given, out);
    pad(out, at);
}
