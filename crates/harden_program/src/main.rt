//! The program: `main` runs the top call over the real files and the standard output, and ends with its number.
#![tactic(auto)]

ghost use Rattle.std.specs.Prelude.{◌≢◌, IfErr, IfOk};

use outside::{OsFiles, OsSink};
use std::io::ErrorKind;
use std::process::ExitCode;
use std::{env, io};
pub use top_call::{Status, exit_number, harden_main};

// The words behind the program's name.
fn words_of(rt: &HostRuntime) -> io::Result<Vec<String>> {
    let mut words = Vec::new(rt.alloc());
    for word in env::args(rt)?.skip(1) {
        words.push(word)?;
    }
    Ok(words)
}

// Runs the top call over the real files and the standard output. Words that can't be had, since one isn't UTF-8, are
// taken as none, which has no reading; want of memory is none of the words' faults.
fn run(rt: &HostRuntime, words: io::Result<Vec<String>>) -> io::Result<Status>
    ensures { IfErr words (λ _. IfOk result (λ status. status ≢ Status.Done)) }
{
    let words = match words {
        Ok(words) => words,
        Err(error) if error.kind() == ErrorKind::OutOfMemory => return Ok(Status::Memory),
        Err(_) => Vec::new(rt.alloc()),
    };
    let mut files = OsFiles::new(rt.clone()?);
    let mut out = OsSink::new(rt.stdout());
    Ok(harden_main(rt.alloc(), &words, &mut files, &mut out))
}

fn main(rt: HostRuntime) -> ExitCode {
    let status = run(&rt, words_of(&rt)).unwrap_or(Status::Memory);
    ExitCode::from(exit_number(status))
}
