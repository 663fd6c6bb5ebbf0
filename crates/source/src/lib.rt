// What a program reads: the file that its argument names, or standard input where there is none.
#![tactic(auto)]

ghost use Rattle.std.specs.Prelude.{◌≡◌, IfOk};

use std::env::{Env, FillError};
use std::fs::File;
use std::io;
use std::io::{Read, Write};

// The longest name that a file is opened by.
const LONGEST_NAME: usize = 4095;

// What is read, its name, and where it is said that it can't be.
#[derive(Drop)]
pub struct Source<'a, R: Read, E: Write> {
    pub file: &'a mut R,
    pub name: &'a [u8],
    pub errors: &'a mut E,
}

// A program that reads one source and prints.
pub trait Program {
    const NAME: &'static str;

    fn run<R: Read, E: Write, W: Write>(
        &self,
        source: &mut Source<'_, R, E>,
        to: &mut W,
    ) -> io::Result<()>;
}

// Writes to standard error why nothing is read.
fn refuse<P: Program>(rt: &HostRuntime, why: &str) -> io::Result<()> {
    let name = P::NAME;
    eprintln!(rt; "{name}: {why}; usage: {name} [FILE]")
}

// Runs the program on the file of this name.
fn run_file<P: Program>(rt: &HostRuntime, program: &P, name: &[u8]) -> io::Result<()> {
    match std::str::from_utf8(name) {
        Err(_) => refuse::<P>(rt, "a file's name is UTF-8"),
        Ok(path) => match File::open(rt, path) {
            Err(error) => print::failure(&mut rt.stderr(), name, error),
            Ok(mut file) => {
                let mut source = Source {
                    file: &mut file,
                    name,
                    errors: &mut rt.stderr(),
                };
                program.run(&mut source, &mut rt.stdout())
            }
        },
    }
}

// Runs the program on what its argument names.
fn run_argument<P: Program>(rt: &HostRuntime, program: &P) -> io::Result<()> {
    let mut name = [0u8; LONGEST_NAME];
    match rt.arg(1, &mut name) {
        Err(FillError::NotPresent) => {
            let mut source = Source {
                file: &mut rt.stdin(),
                name: b"standard input",
                errors: &mut rt.stderr(),
            };
            program.run(&mut source, &mut rt.stdout())
        }
        Ok(0) | Err(FillError::TooLong) => refuse::<P>(rt, "a file's name has 1 to 4095 octets"),
        Ok(n) => run_file(rt, program, &name[..n]),
    }
}

// Runs the program, which takes one argument at most. What it writes is not stated.
pub fn start<P: Program>(rt: &HostRuntime, program: &P) -> io::Result<()>
    ensures { IfOk result (λ r. r ≡ tt) }
{
    match rt.arg(2, &mut []) {
        Err(FillError::NotPresent) => run_argument(rt, program),
        _ => refuse::<P>(rt, "one file at most"),
    }
}
