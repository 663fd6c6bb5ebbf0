// The responder's saved timestamps, R-1 to R-3, as a lent slice of records, G-9.
#![tactic(auto)]

mod value;

ghost use Rattle.std.specs.Prelude.{◌≡◌};
ghost use Rattle.refusal.specs.Refusal.{outcome_number};
ghost use Rattle.records.specs.Records.{records_in, place_from, time_at, wrong_records, clear_records, report_records, leave_records, join_records};

use header::ServerCookie;
use refusal::Refusal;
use value::Seen;

// R-2: an unused record has cookie 0 and time 0; a used one has time 0 until it is reported.
#[derive(Clone, Copy, PartialEq, Eq)]
pub struct Record {
    pub cookie: ServerCookie,
    pub time: u64,
}

// An unused record.
pub const UNUSED: Record = Record {
    cookie: ServerCookie(0),
    time: 0,
};

// Where the first record with this cookie stands, from a place on; the end where there is none.
// The end and no `Option`: `place_from` says so.
pub fn find(records: &[Record], from: usize, cookie: ServerCookie) -> usize
    ensures { result ≡ place_from (records_in records.now) cookie.0 from }
{
    if records.len() < from {
        return from;
    }
    let rest = &records[from..];
    let passed = rest.iter().position(|record| record.cookie == cookie);
    from + passed.unwrap_or(rest.len())
}

// The transmit time of the record at a place; 0 past the end.
pub fn time(records: &[Record], at: usize) -> u64
    ensures { result ≡ time_at (records_in records.now) at }
{
    records.get(at).map_or(0, |record| record.time)
}

// The store part of refusal 6: N-10 and N-14.
pub fn wrong(records: &[Record]) -> bool
    ensures { result ≡ wrong_records (records_in records.now) }
{
    let n = records.len();
    if value::wrong_count(n) {
        return true;
    }
    let mut seen = Seen {
        wrong: false,
        gap: false,
    };
    for (at, record) in records.iter().enumerate() {
        let later = find(records, at + 1, record.cookie);
        seen = value::seen_after(seen, *record, later < n);
    }
    seen.wrong
}

// R-1: makes every record unused.
pub fn clear(records: &mut [Record]) -> Result<(), Refusal>
    ensures { (outcome_number result, records_in records.new) ≡ clear_records (records_in records.old) }
{
    if value::wrong_count(records.len()) {
        return Err(Refusal::BadArgument);
    }
    records.fill(UNUSED);
    Ok(())
}

// R-3.
pub fn report(records: &mut [Record], cookie: ServerCookie, time: u64) -> Result<(), Refusal>
    ensures { (outcome_number result, records_in records.new) ≡ report_records (records_in records.old) cookie.0 time }
{
    let is_wrong = wrong(records);
    let at = find(records, 0, cookie);
    if at < records.len() {
        records[at] = value::reported(is_wrong, records[at], time)?;
        return Ok(());
    }
    Err(value::absent(is_wrong, time))
}

// R-10: the record at a place leaves, those after it move up, and the last is unused.
pub fn leave(records: &mut [Record], at: usize)
    ensures { records_in records.new ≡ leave_records (records_in records.old) at }
{
    let n = records.len();
    if at < n {
        records.copy_within(at + 1.., at);
        records[n - 1] = UNUSED;
    }
}

// R-12, R-13: a cookie joins the row. Where that is full, its first record leaves.
pub fn join(records: &mut [Record], cookie: ServerCookie)
    ensures { records_in records.new ≡ join_records (records_in records.old) cookie.0 }
{
    let free = find(records, 0, ServerCookie(0));
    if free < records.len() {
        records[free].cookie = cookie;
        return;
    }
    leave(records, 0);
    if let Some(newest) = records.last_mut() {
        newest.cookie = cookie;
    }
}
