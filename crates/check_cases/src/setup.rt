//! What a case runs over. A line changes it:
//!
//!     edit PATH|OLD=>NEW|..     the file, with each NEW in the place where its OLD stands first
//!     text PATH|TEXT            a file with this text
//!     spaces PATH|COUNT         a file of so many spaces
//!     gone PATH                 the file isn't there
//!     failing_read NUMBER       the read of this number fails
//!     failing_write NUMBER      the write to the output of this number fails
//!     most COUNT                a write to the output takes at most so many bytes
//!
//! Texts are written as in tables of `case_tables`.

use anyhow::{Context, Result, bail};
use case_tables::{text_of, written_out};
use outside::MemFiles;
use std::alloc::{AllocError, Global};
use std::fs;
use std::rt::Files;

/// Files that are changed, calls that fail, and how many bytes a write to the output takes at most.
#[derive(Drop)]
pub struct Setup {
    changed: Vec<(String, Vec<u8>)>,
    gone: Vec<String>,
    failing_read: u64,
    failing_write: u64,
    pub most: usize,
}

// How many bytes a write to the output takes where no line says so.
const WHOLE_TEXTS: usize = 1000;

// The number that a text is.
fn number_of(text: &str) -> Result<u64> {
    text.parse().context("a number is wanted")
}

// A text that is written out.
fn part_of(alloc: Global, text: &str) -> Result<String> {
    let bytes = written_out(alloc, text)?;
    let part = std::str::from_utf8(bytes.as_slice()).context("a part that is no text")?;
    Ok(String::from_str(alloc, part)?)
}

// A text with one edit.
fn edited(alloc: Global, text: &str, edit: &str) -> Result<String> {
    let (old, new) = edit.split_once("=>").context("an edit is wanted")?;
    let old = part_of(alloc, old)?;
    let new = part_of(alloc, new)?;
    let (before, behind) = text
        .split_once(old.as_str())
        .context("no place for an edit")?;
    Ok(format!(in alloc; "{before}{new}{behind}")?)
}

// The text of a file with its edits, one after the other.
fn edited_file<R: Files + AllocGlobal>(rt: &R, path: &str, edits: &str) -> Result<Vec<u8>> {
    let alloc = rt.alloc();
    let mut text = text_of(rt, path)?;
    for edit in edits.split('|') {
        text = edited(alloc, text.as_str(), edit)?;
    }
    Ok(Vec::from_slice(alloc, text.as_str().as_bytes())?)
}

// So many spaces.
fn spaces(alloc: Global, count: &str) -> Result<Vec<u8>> {
    let count = usize::try_from(number_of(count)?)?;
    Ok(vec![in alloc; b' '; count]?)
}

// The one call that fails, or none.
fn failing(alloc: Global, call: u64) -> Result<Vec<u64>, AllocError> {
    let mut calls = Vec::new(alloc);
    if call > 0 {
        calls.push(call)?;
    }
    Ok(calls)
}

// Whether a path is one of some.
fn is_among(paths: &[String], path: &str) -> bool {
    paths.iter().any(|other| other.as_str() == path)
}

impl Setup {
    /// Nothing is changed, and no call fails.
    pub fn new(alloc: Global) -> Setup {
        Setup {
            changed: Vec::new(alloc),
            gone: Vec::new(alloc),
            failing_read: 0,
            failing_write: 0,
            most: WHOLE_TEXTS,
        }
    }

    /// Makes the change of a line.
    pub fn change<R: Files + AllocGlobal>(&mut self, rt: &R, line: &str) -> Result<()> {
        let (kind, what) = line.split_once(' ').context("a change is wanted")?;
        match kind {
            "gone" => self.gone.push(String::from_str(rt.alloc(), what)?)?,
            "failing_read" => self.failing_read = number_of(what)?,
            "failing_write" => self.failing_write = number_of(what)?,
            "most" => self.most = usize::try_from(number_of(what)?)?,
            _ => self.change_file(rt, kind, what)?,
        }
        Ok(())
    }

    // Changes a file.
    fn change_file<R: Files + AllocGlobal>(
        &mut self,
        rt: &R,
        kind: &str,
        what: &str,
    ) -> Result<()> {
        let alloc = rt.alloc();
        let (path, what) = what.split_once('|').context("a path is wanted")?;
        let bytes = match kind {
            "edit" => edited_file(rt, path, what)?,
            "text" => written_out(alloc, what)?,
            "spaces" => spaces(alloc, what)?,
            _ => bail!("no kind of line: {kind}"),
        };
        self.changed.push((String::from_str(alloc, path)?, bytes))?;
        Ok(())
    }

    /// The writes to the output that fail.
    pub fn failing_writes(&self, alloc: Global) -> Result<Vec<u64>, AllocError> {
        failing(alloc, self.failing_write)
    }

    /// The files in memory: those that are changed, of which the first of a name counts, and those of a list of paths.
    pub fn files<R: Files + AllocGlobal>(self, rt: &R, told: &str) -> Result<MemFiles> {
        let alloc = rt.alloc();
        let reads = failing(alloc, self.failing_read)?;
        let gone = self.gone;
        let mut entries = self.changed;
        for path in told.lines() {
            if !is_among(gone.as_slice(), path) {
                let bytes = fs::read(rt, path).context(format_args!("reading {path}"))?;
                entries.push((String::from_str(alloc, path)?, bytes))?;
            }
        }
        Ok(MemFiles::new(entries, reads, Vec::new(alloc)))
    }
}
