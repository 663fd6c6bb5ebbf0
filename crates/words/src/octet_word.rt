// Octets as a word: pairs of hexadecimal digits, where *N after a pair has its octet stand N times. A comma
// may stand between pairs, and must where more follows a count. A word of one minus sign is no octets.
ghost use Rattle.std.specs.Prelude.{◌≡◌, ◌+◌, ◌≤◌, length};
ghost use Rattle.words.specs.OctetWord.{separated_at, counted_run, run_of, pair_of, fill_from, write_from, write_of, word_octets};
ghost use Rattle.words.specs.Wrong.{value_of, nibble_of, run_as, allowed};

use crate::number::{Base, digit, digits};
use crate::problem::{Problem, Wrong, value};
use octets::number::{get, put};
use text::{find, part, rest, same};

// A pair at a text's start: how often its octet stands, and how much text says so, with a comma after it.
#[derive(Clone, Copy)]
pub struct Run {
    pub times: u64,
    pub end: usize,
}

// A comma at `at` is passed, and more has to follow it.
#[tactic(auto, unfolding(crate::specs::OctetWord::separated_at))]
fn separated(text: &[u8], at: usize, times: u64) -> Result<Run, Problem>
    ensures { run_as result ≡ separated_at text.now at times }
{
    if get::<u8>(text, at) != b',' {
        return Ok(Run { times, end: at });
    }
    if rest(text, at).len() == 1 {
        return Err(Problem::NotOctets);
    }
    Ok(Run { times, end: at + 1 })
}

// A pair with a count after it. One that is out of range is too many octets in any case.
#[tactic(auto, unfolding(crate::specs::OctetWord::counted_run, crate::specs::OctetWord::after_count), using(crate::proofs::Problems::not_a_number))]
fn counted(text: &[u8]) -> Result<Run, Problem>
    ensures { run_as result ≡ counted_run text.now }
{
    let end = find(text, 3, b',', true);
    match digits(part(text, 3, end), Base::Decimal, u64::MAX) {
        Ok(times) => separated(text, end, times),
        Err(wrong) => match wrong.problem {
            Problem::NotANumber => Err(Problem::NotOctets),
            _ => separated(text, end, wrong.value),
        },
    }
}

#[tactic(auto, unfolding(crate::specs::OctetWord::run_of), using(crate::proofs::Numerals::no_digit, crate::proofs::Numerals::some_digit))]
fn run_of(text: &[u8]) -> Result<Run, Problem>
    ensures { run_as result ≡ run_of text.now }
{
    if digit(get::<u8>(text, 0)).is_none() {
        return Err(Problem::NotOctets);
    }
    if digit(get::<u8>(text, 1)).is_none() {
        return Err(Problem::OddDigits);
    }
    if get::<u8>(text, 2) == b'*' {
        return counted(text);
    }
    separated(text, 2, 1)
}

// A digit's part of its pair's octet.
#[tactic(auto, using(crate::proofs::Numerals::below_some, crate::proofs::Numerals::below_none, crate::proofs::Numerals::digit_bound))]
fn nibble(octet: u8) -> u8
    ensures { result ≡ nibble_of octet }
{
    match digit(octet) {
        Some(d) => (d % 16) as u8,
        None => 0,
    }
}

// The octet of the pair at a text's start.
#[tactic(auto, unfolding(crate::specs::OctetWord::pair_of))]
fn pair(text: &[u8]) -> u8
    ensures { result ≡ pair_of text.now }
{
    nibble(get(text, 0)) * 16 + nibble(get(text, 1))
}

// The run at a text's start, if it has room after so many octets.
#[tactic(auto, unfolding(crate::specs::OctetWord::run_problem))]
fn next(text: &[u8], count: u64) -> Result<Run, Problem>
    requires { count ≤ 4096 }
    ensures { run_as result ≡ allowed (run_of text.now) count }
{
    let run = run_of(text)?;
    if run.times > 4096 - count {
        return Err(Problem::TooManyOctets);
    }
    Ok(run)
}

// Writes an octet `times` times from `from` on, where the buffer has the places: from the last on, as `fill_from` does.
fn fill(buffer: &mut [u8], from: u64, times: u64, octet: u8)
    requires { from + times ≤ 4096 }
    ensures { buffer.new ≡ fill_from buffer.old from times octet }
{
    for left in (0..times).rev() {
        put(buffer, (from + left) as usize, octet);
    }
}

// Each run takes an octet of the text at least, so that as many turns as octets are enough.
fn write_runs(word: &[u8], buffer: &mut [u8]) -> Result<u64, Wrong>
    ensures { (value_of result, buffer.new) ≡ write_from (length word.now) buffer.old 0 word.now }
{
    let mut text = word;
    let mut count = 0;
    for turn in 0..word.len() {
        if text.is_empty() {
            return Ok(count);
        }
        match next(text, count) {
            Ok(run) => {
                fill(buffer, count, run.times, pair(text));
                count += run.times;
                text = rest(text, run.end);
            }
            Err(problem) => return Err(Wrong {
                problem,
                value: count,
            }),
        }
    }
    Ok(count)
}

// Writes the octets that a word spells from the buffer's start on, those before the first wrong run too, where the buffer has
// the places. The value is how many they are.
pub fn write(word: &[u8], buffer: &mut [u8]) -> Result<u64, Wrong>
    ensures { (value_of result, buffer.new) ≡ write_of word.now buffer.old }
{
    if same(word, b"-") {
        return Ok(0);
    }
    write_runs(word, buffer)
}

// The octets that a word spells, written from the buffer's start on, as many of them as it has places for. They come back as a
// part of the buffer, so that a caller has no end to prove; the rest of it is out of reach while the part is in use.
// The caller lends the room: there is no heap.
#[tactic(auto, unfolding(crate::specs::OctetWord::word_octets))]
pub fn octets_of<'a>(word: &[u8], buffer: &'a mut [u8]) -> &'a mut [u8]
    ensures { result.now ≡ word_octets word.now buffer.old }
{
    let n = value(write(word, buffer)) as usize;
    if n <= buffer.len() {
        return &mut buffer[..n];
    }
    buffer
}
