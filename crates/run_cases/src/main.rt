//! Runs the top call on a table of cases, each over one file `m.db` in memory and an output in memory, and prints the
//! number that each ends with and the text that it prints. A line of the file `cases` is a case: the file whose bytes
//! `m.db` has (or `spaces:` and how many), the number of the read that fails, how many bytes a write to the output takes
//! at most, the number of the write to the output that fails (0: none fails), and the words of the run. Lines with `#` are
//! headings.
#![tactic(auto)]

use anyhow::{Context, Result};
use outside::{MemFiles, MemSink};
use std::alloc::{AllocError, Global};
use std::fs;
use std::rt::Files;
use top_call::{exit_number, harden_main};

/// A case of the table.
#[derive(Drop)]
struct Case<'a> {
    content: &'a str,
    failing_read: u64,
    most: usize,
    failing_write: u64,
    words: Vec<String>,
}

// The number that a field of a case is.
fn number_of(field: Option<&str>) -> Result<u64> {
    let field = field.context("a case with too few fields")?;
    field.parse().context("a field that is no number")
}

// The case of a line.
fn case_of(alloc: Global, line: &str) -> Result<Case<'_>> {
    let mut fields = line.split(' ');
    let content = fields.next().context("a case without content")?;
    let failing_read = number_of(fields.next())?;
    let most = usize::try_from(number_of(fields.next())?)?;
    let failing_write = number_of(fields.next())?;
    let mut words = Vec::new(alloc);
    for word in fields {
        words.push(String::from_str(alloc, word)?)?;
    }
    Ok(Case {
        content,
        failing_read,
        most,
        failing_write,
        words,
    })
}

// The bytes of the file of a case.
fn bytes_of<R: Files + AllocGlobal>(rt: &R, content: &str) -> Result<Vec<u8>> {
    let Some(count) = content.strip_prefix("spaces:") else {
        return fs::read(rt, content).context(format_args!("reading {content}"));
    };
    let count: usize = count.parse().context("a count that is no number")?;
    Ok(vec![in rt.alloc(); b' '; count]?)
}

// The one call that fails, or none.
fn failing(alloc: Global, call: u64) -> Result<Vec<u64>, AllocError> {
    let mut calls = Vec::new(alloc);
    if call > 0 {
        calls.push(call)?;
    }
    Ok(calls)
}

// Runs a case, and prints how it ends.
fn run_case<R: Files + Print + AllocGlobal>(rt: &R, line: &str) -> Result<()> {
    let alloc = rt.alloc();
    let case = case_of(alloc, line)?;
    let mut entries = Vec::new(alloc);
    entries.push((
        String::from_str(alloc, "m.db")?,
        bytes_of(rt, case.content)?,
    ))?;
    let mut files = MemFiles::new(entries, failing(alloc, case.failing_read)?, Vec::new(alloc));
    let mut out = MemSink::new(alloc, case.most.max(1), failing(alloc, case.failing_write)?);
    let status = harden_main(alloc, &case.words, &mut files, &mut out);
    let number = exit_number(status);
    let text = std::str::from_utf8(out.written()).context("a text that is no UTF-8")?;
    println!(rt; "{line}\n    {number} {text:?}")?;
    Ok(())
}

fn main(rt: HostRuntime) -> Result<()> {
    let table = fs::read_to_string(&rt, "cases").context("reading the table")?;
    for line in table.lines() {
        if line.starts_with('#') {
            println!(rt; "{line}")?;
        } else {
            run_case(&rt, line)?;
        }
    }
    Ok(())
}
