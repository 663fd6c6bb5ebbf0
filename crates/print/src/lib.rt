// Printing by rows of a table. A row is words: a name, a signature, and the words of a form, which are printed
// after the name with spaces between them. In a form's word, % and a letter stand for the word's value:
//   %d         in decimal
//   %i         in decimal, a signed number given in two's complement of 64 bits
//   %h %w %q   4, 8, 16 hexadecimal digits
//   %r         a refusal in decimal; the words after it are printed only if it is 0
//   %o         the octets
// A line is made in a buffer and goes to the writer in one call, or, where it is longer than the buffer, in a few.
//
// A public call that succeeds returns nothing, and every octet that it was lent stays as it was; one that fails returns the
// writer's error. What is written is not stated, and is compared where a program is run.
#![tactic(auto)]

ghost use Rattle.std.specs.Prelude.{◌≡◌, IfOk};

use octets::number::get;
use refusal::{Refusal, RefusedBy};
use std::fmt::Display;
use std::io;
use std::io::{Cursor, Write};
use text::{find, part, piece, rest};

// How many octets of a line are written at a time.
const ROOM: usize = 4096;

// A line that is being made: what is not yet written stands in `out`, up to `at`.
// No `BufWriter`: its room is on the heap.
#[derive(Drop)]
struct Line<'a, W: Write> {
    to: &'a mut W,
    out: [u8; ROOM],
    at: usize,
}

impl<W: Write> Write for Line<'_, W> {
    // A full buffer is written, and filled anew.
    fn write(&mut self, s: &[u8]) -> io::Result<usize> {
        if ROOM <= self.at {
            self.flush()?;
            self.at = 0;
        }
        let n = s.len().min(ROOM - self.at);
        self.out[self.at..self.at + n].copy_from_slice(&s[..n]);
        self.at += n;
        Ok(n)
    }

    fn flush(&mut self) -> io::Result<()> {
        self.to.write_all(part(&self.out, 0, self.at))?;
        self.at = 0;
        Ok(())
    }
}

impl<W: Write> Line<'_, W> {
    // A run of equal octets: four or more with their count, and a comma behind that where more octets follow.
    fn run(&mut self, run: &[u8], followed: bool) -> io::Result<()> {
        let times = run.len();
        if times < 4 {
            for x in run {
                self.write_all(&pair(*x))?;
            }
            return Ok(());
        }
        self.write_all(&pair(run[0]))?;
        write!(self, "*{times}")?;
        if followed {
            self.write_all(b",")?;
        }
        Ok(())
    }

    // Octets as a word of a line has them.
    fn runs(&mut self, octets: &[u8]) -> io::Result<()> {
        if octets.is_empty() {
            return self.write_all(b"-");
        }
        let mut left = octets.len();
        for run in octets.chunk_by(|a, b| a == b) {
            left = left.wrapping_sub(run.len());
            self.run(run, left != 0)?;
        }
        Ok(())
    }

    // What the letter of a form stands for.
    // A letter, matched once, where it is read.
    fn value(&mut self, letter: u8, value: u64, octets: &[u8]) -> io::Result<()> {
        let signed = value.cast_signed();
        match letter {
            b'd' | b'r' => write!(self, "{value}"),
            b'i' => write!(self, "{signed}"),
            b'h' => write!(self, "{value:04x}"),
            b'w' => write!(self, "{value:08x}"),
            b'q' => write!(self, "{value:016x}"),
            b'o' => self.runs(octets),
            _ => Ok(()),
        }
    }

    // A word of a form after a space; nothing where the form has no further word.
    fn word(&mut self, word: &[u8], value: u64, octets: &[u8]) -> io::Result<()> {
        if word.is_empty() {
            return Ok(());
        }
        let mark = find(word, 0, b'%', true);
        self.write_all(b" ")?;
        self.write_all(part(word, 0, mark))?;
        self.value(get(word, mark + 1), value, octets)?;
        self.write_all(rest(word, mark + 2))
    }

    // The row with these values, one for each word of its form, and octets.
    fn form(&mut self, row: &[u8], values: &[u64], octets: &[u8]) -> io::Result<()> {
        self.write_all(piece(row, 0, b' '))?;
        for (k, value) in values.iter().enumerate() {
            let word = piece(row, k + 2, b' ');
            self.word(word, *value, octets)?;
            if !goes_on(word, *value) {
                break;
            }
        }
        self.write_all(b"\n")?;
        self.flush()
    }
}

// The two hexadecimal digits of an octet. Most of what is printed are octets, and `{x:02x}` takes twice as long.
fn pair(x: u8) -> [u8; 2] {
    let digits = b"0123456789abcdef";
    [
        get(digits, usize::from(x / 16)),
        get(digits, usize::from(x % 16)),
    ]
}

fn start<W: Write>(to: &mut W) -> Line<'_, W> {
    Line {
        to,
        out: [0; ROOM],
        at: 0,
    }
}

// Whether further words may follow this one with this value.
fn goes_on(word: &[u8], x: u64) -> bool {
    let mark = find(word, 0, b'%', true);
    (word.len() != 0) & ((get::<u8>(word, mark + 1) != b'r') | (x == 0))
}

// Where a row's line is printed.
#[derive(Drop)]
pub struct Row<'a, W: Write> {
    pub to: &'a mut W,
    pub row: &'a [u8],
}

impl<W: Write> Row<'_, W> {
    pub fn line(self, values: &[u64], octets: &[u8]) -> io::Result<()>
        ensures { IfOk result (λ r. r ≡ tt) }
    {
        let Row { to, row } = self;
        start(to).form(row, values, octets)
    }

    // The same after a number.
    pub fn numbered(self, number: u64, values: &[u64], octets: &[u8]) -> io::Result<()>
        ensures { IfOk result (λ r. r ≡ tt) }
    {
        let Row { to, row } = self;
        let mut line = start(to);
        write!(line, "{number} ")?;
        line.form(row, values, octets)
    }

    // The row with a refusal or 0, and for some rows octets. The refusal may be any number, which is printed.
    pub fn result<R: RefusedBy>(self, outcome: Result<(), R>, octets: &[u8]) -> io::Result<()>
        ensures { IfOk result (λ r. r ≡ tt) }
    {
        self.line(&[u64::from(refusal::outcome_number(outcome)), 0], octets)
    }

    // The row with an answer's values, or with its refusal.
    pub fn answered<const N: usize>(
        self,
        said: Result<[u64; N], Refusal>,
        octets: &[u8],
    ) -> io::Result<()>
        ensures { IfOk result (λ r. r ≡ tt) }
    {
        match said {
            Ok(values) => self.line(&values, octets),
            Err(refusal) => self.result(Err(refusal), octets),
        }
    }
}

// A line of text.
pub fn text<W: Write, D: Display + Drop>(to: &mut W, text: D) -> io::Result<()>
    ensures { IfOk result (λ r. r ≡ tt) }
{
    let mut line = start(to);
    writeln!(line, "{text}")?;
    line.flush()
}

// The reason in an error's text, without the system's number of it, which stands behind it in parentheses.
fn reason(text: &[u8]) -> &[u8] {
    let mark = find(text, 0, b'(', true);
    if mark < text.len() {
        return part(text, 0, mark.wrapping_sub(1));
    }
    text
}

// What can't be opened or read, and why.
pub fn failure<W: Write>(to: &mut W, what: &[u8], error: io::Error) -> io::Result<()>
    ensures { IfOk result (λ r. r ≡ tt) }
{
    let mut told = Cursor::new([0u8; 256]);
    write!(told, "{error}")?;
    let n = told.position() as usize;
    let text = told.into_inner();
    let mut line = start(to);
    line.write_all(what)?;
    line.write_all(b": ")?;
    line.write_all(reason(part(&text, 0, n)))?;
    line.write_all(b"\n")?;
    line.flush()
}
