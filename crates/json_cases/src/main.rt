//! Reads tables of cases of grids, cell profiles and side files, and prints what their readers answer to each. Its words
//! are pairs of a reader (`grid`, `profile` or `side`) and the path of a table (see `case_tables`). An answer is printed
//! behind the reader and the number of the case's line: the fault by its name, or what was read.
#![tactic(auto)]

mod grid;
mod profile;
mod side;

use anyhow::{Context, Result, bail};
use case_tables::{bytes_of, is_case, text_of};
use std::alloc::Global;
use std::env;
use std::rt::Files;

// What a reader answers to a text.
fn answer_to(alloc: Global, reader: &str, bytes: &[u8]) -> Result<Vec<u8>> {
    match reader {
        "grid" => grid::answer_to(alloc, bytes),
        "profile" => profile::answer_to(alloc, bytes),
        "side" => side::answer_to(alloc, bytes),
        _ => bail!("no reader: {reader}"),
    }
}

// What a reader answers to the case of a line.
fn answer<R: Files + AllocGlobal>(rt: &R, reader: &str, line: &str) -> Result<Vec<u8>> {
    let bytes = bytes_of(rt, line)?;
    answer_to(rt.alloc(), reader, bytes.as_slice())
}

// The answers to the cases of a table.
fn print_table<R: Files + Print + AllocGlobal>(rt: &R, reader: &str, path: &str) -> Result<()> {
    let table = text_of(rt, path)?;
    let mut number = 0u32;
    for line in table.lines() {
        number = number.saturating_add(1);
        if is_case(line) {
            let answer = answer(rt, reader, line).context(format_args!("{path}, line {number}"))?;
            let answer = std::str::from_utf8(answer.as_slice()).context(
                "an answer that is no text",
            )?;
            println!(rt; "{reader} {number}: {answer}")?;
        }
    }
    Ok(())
}

fn main(rt: HostRuntime) -> Result<()> {
    let mut words = env::args(&rt)?.skip(1);
    for _ in 0..100 {
        let Some(reader) = words.next() else {
            break;
        };
        let path = words.next().context("a table's path is wanted")?;
        print_table(&rt, reader.as_str(), path.as_str())?;
    }
    Ok(())
}
