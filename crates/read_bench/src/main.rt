//! A benchmark of the readers: reads files and prints how much is in them. Its words are pairs of a kind and a path:
//! `config` (a text configuration), `side` (a side file), `grid`, `profile` and `database`, or `bytes`, which reads no
//! more than the bytes. With `made` or `text` in the place of a kind a database of as many muxes as the next word says is
//! made, each mux of ten arcs, and with `made` it is read. Time it, or count its instructions, from outside.
#![tactic(auto)]

mod made;
mod readers;

use anyhow::{Context, Result};
use std::alloc::Global;
use std::env;
use std::rt::Files;

// What a reader finds in a text, as a line.
fn line_of(alloc: Global, kind: &str, text: &[u8]) -> Result<String> {
    match kind {
        "config" => readers::config_line(alloc, text),
        "side" => readers::side_line(alloc, text),
        "grid" => readers::grid_line(alloc, text),
        "profile" => readers::profile_line(alloc, text),
        "database" | "made" => readers::database_line(alloc, text),
        _ => Ok(String::new(alloc)),
    }
}

// The text that a pair of words stands for.
fn text_of<R: Files + AllocGlobal>(rt: &R, kind: &str, what: &str) -> Result<Vec<u8>> {
    match kind {
        "made" | "text" => made::database(rt.alloc(), what),
        _ => readers::bytes_of(rt, what),
    }
}

// Reads what a pair of words stands for, and prints what is in it.
fn print_pair<R: Files + Print + AllocGlobal>(rt: &R, kind: &str, what: &str) -> Result<()> {
    let text = text_of(rt, kind, what)?;
    let bytes = text.len();
    let line = line_of(rt.alloc(), kind, text.as_slice()).context(format_args!("in {what}"))?;
    println!(rt; "{kind} {what}: bytes {bytes}{line}")?;
    Ok(())
}

fn main(rt: HostRuntime) -> Result<()> {
    let mut words = env::args(&rt)?.skip(1);
    for _ in 0..100 {
        let Some(kind) = words.next() else {
            break;
        };
        let what = words.next().context("a path or a number is wanted")?;
        print_pair(&rt, kind.as_str(), what.as_str())?;
    }
    Ok(())
}
