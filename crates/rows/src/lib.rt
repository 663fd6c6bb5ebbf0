// The rows of calls, and which call a line is. Each row is a line: the call's name, its signature, and the form of its result
// line (crate print). A signature has a letter for each word after the name:
//   b, h, w, q   a number of 8, 16, 32, 64 bits
//   s            a signed number of 8 bits
//   t            a signed number of 16 bits
//   m            the word basic or interleaved
//   -            no word: the signature of a call that has none
//   I            octets that the call reads
//   O            octets that the call may change, at most one word of a call
#![tactic(auto)]

ghost use Rattle.std.specs.Prelude.{◌≡◌, ℕ, IfOk};
ghost use Rattle.rows.specs.Rows.{mode_problem, octets_problem, problem_of, row_number, fault_of, found_of, call_number};
ghost use Rattle.rows.specs.Answers.{outcome_problem, some_row, with_call, outcome_as, told, called};

use octets::number::get;
use std::io::Write;
use std::{fmt, io};
use text::{part, piece, same};
use words::number::read;
use words::octet_word::write;
use words::problem::Problem;

// How many rows are looked at.
const ROWS: usize = 64;

// What is wrong with which word of a line, counted from 1.
// Word 0 is the whole line, as in `found_of`.
#[derive(Clone, Copy)]
struct Fault {
    word: usize,
    problem: Problem,
}

impl fmt::Display for Fault {
    fn fmt<W: fmt::Write>(&self, f: &mut fmt::Formatter<W>) -> fmt::Result {
        let word = self.word;
        let problem = self.problem;
        match problem {
            Problem::TooLong => write!(f, "{problem}"),
            _ => write!(f, "word {word}: {problem}"),
        }
    }
}

#[tactic(auto, unfolding(crate::specs::Rows::mode_problem))]
fn check_mode(word: &[u8]) -> Result<(), Problem>
    ensures { outcome_problem result ≡ mode_problem word.now }
{
    if same(word, b"basic") | same(word, b"interleaved") {
        return Ok(());
    }
    Err(Problem::NoMode)
}

// The octets go to no buffer: only what is wrong with them is asked.
#[tactic(auto, unfolding(crate::specs::Rows::octets_problem))]
fn check_octets(word: &[u8]) -> Result<(), Problem>
    ensures { outcome_problem result ≡ octets_problem word.now }
{
    match write(word, &mut []) {
        Ok(_) => Ok(()),
        Err(wrong) => Err(wrong.problem),
    }
}

// What is wrong with a word for this letter; where there is no letter, a word is left over.
// A letter and no enum: `problem_of` speaks of the letters of the rows' text.
#[tactic(auto, unfolding(crate::specs::Rows::problem_of))]
fn check_word(word: &[u8], letter: u8) -> Result<(), Problem>
    ensures { outcome_problem result ≡ problem_of letter word.now }
{
    if (letter == 0) | (letter == b'-') {
        if word.is_empty() {
            return Ok(());
        }
        return Err(Problem::LeftOver);
    }
    if word.is_empty() {
        return Err(Problem::Missing);
    }
    match letter {
        b'm' => check_mode(word),
        b'I' | b'O' => check_octets(word),
        _ => match read(word, letter) {
            Ok(_) => Ok(()),
            Err(wrong) => Err(wrong.problem),
        },
    }
}

// The words are looked at up to the first that is wrong, and one past the last letter.
fn check(line: &[u8], signature: &[u8]) -> Result<(), Fault>
    ensures { (call : ℕ) → with_call call result ≡ fault_of call line.now signature.now }
{
    // By places: the one past the signature, whose letter is 0, is looked at too.
    for i in 0..signature.len() + 1 {
        let word = piece(line, i + 1, b' ');
        if let Err(problem) = check_word(word, get(signature, i)) {
            return Err(Fault {
                word: i + 2,
                problem,
            });
        }
    }
    Ok(())
}

// The number of the row with this name.
fn look_up(rows: &[u8], name: &[u8]) -> Option<usize>
    ensures { result ≡ some_row (row_number rows.now name.now) }
{
    for k in 0..ROWS {
        if same(piece(piece(rows, k, b'\n'), 0, b' '), name) {
            return Some(k);
        }
    }
    None
}

// The call of a line, or what is wrong with it. A line with no word is no call, and nothing is wrong with it.
fn find(rows: &[u8], line: &[u8]) -> Result<Option<usize>, Fault>
    ensures { outcome_as result ≡ told (found_of rows.now line.now) }
{
    let name = piece(line, 0, b' ');
    if name.is_empty() {
        return Ok(None);
    }
    let Some(call) = look_up(rows, name) else {
        return Err(Fault {
            word: 1,
            problem: Problem::UnknownCall,
        });
    };
    check(line, piece(piece(rows, call, b'\n'), 1, b' '))?;
    Ok(Some(call))
}

// The same of the line of this length, which may be more than there is room for.
// A line and its length: `call_number` takes a length that is past the line.
fn find_within(rows: &[u8], line: &[u8], length: usize) -> Result<Option<usize>, Fault>
    ensures { called result ≡ some_row (call_number rows.now line.now length) }
{
    if length > line.len() {
        return Err(Fault {
            word: 0,
            problem: Problem::TooLong,
        });
    }
    find(rows, part(line, 0, length))
}

// The call of the line of this length and number. What is wrong with a line is printed, and the line is then no call.
pub fn call_of<W: Write>(
    to: &mut W,
    rows: &[u8],
    line: &[u8],
    length: usize,
    number: u64,
) -> io::Result<Option<usize>>
    ensures { IfOk result (λ call. call ≡ some_row (call_number rows.now line.now length)) }
{
    match find_within(rows, line, length) {
        Ok(call) => Ok(call),
        Err(fault) => {
            print::text(to, format_args!("line {number}: {fault}"))?;
            Ok(None)
        }
    }
}
