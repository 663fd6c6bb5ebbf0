// What is decided about one record, by value.
ghost use Rattle.std.specs.Prelude.{◌≡◌};
ghost use Rattle.refusal.specs.Refusal.{refusal_number, by_number};
ghost use Rattle.records.specs.Records.{wrong_count};
ghost use Rattle.records.specs.Value.{seen_after, reported_one, absent_refusal};

use crate::{Record, UNUSED};
use header::ServerCookie;
use refusal::Refusal;

// N-10, by R-1.
pub(crate) fn wrong_count(n: usize) -> bool
    ensures { result ≡ wrong_count n }
{
    (n < 1) | (64 < n)
}

// What a pass over the records has seen: something wrong, or an unused record, after which no used one may stand.
#[derive(Clone, Copy)]
pub struct Seen {
    pub wrong: bool,
    pub gap: bool,
}

// One record more is seen. `again`: a later one has its cookie too.
pub(crate) fn seen_after(seen: Seen, r: Record, again: bool) -> Seen
    ensures { result ≡ seen_after seen r again }
{
    if r == UNUSED {
        return Seen { gap: true, ..seen };
    }
    let no_cookie = r.cookie == ServerCookie(0);
    Seen {
        wrong: seen.wrong | seen.gap | no_cookie | again,
        ..seen
    }
}

// The record after a report of a time for its cookie.
pub(crate) fn reported(wrong: bool, r: Record, time: u64) -> Result<Record, Refusal>
    ensures { by_number result ≡ reported_one wrong r time }
{
    if wrong | (time == 0) {
        return Err(Refusal::BadArgument);
    }
    if (r.cookie == ServerCookie(0)) | (r.time != 0) {
        return Err(Refusal::NotStored);
    }
    Ok(Record { time, ..r })
}

// A report for a cookie that no record has.
pub(crate) fn absent(wrong: bool, time: u64) -> Refusal
    ensures { refusal_number result ≡ absent_refusal wrong time }
{
    if wrong | (time == 0) {
        Refusal::BadArgument
    } else {
        Refusal::NotStored
    }
}
