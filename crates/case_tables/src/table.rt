//! Tables of cases. A line is a case, but for empty ones and those that begin with `#`:
//!
//!     text TEXT             the text, or no byte where nothing follows
//!     file PATH             the bytes of a file
//!     edit PATH|OLD|NEW     the text of a file, with NEW in the place of OLD where that stands first
//!
//! In a text, `<FROM..TO PART>` stands for PART once for each number from FROM to below TO, with the number for each `#`,
//! and then `\n`, `\r`, `\t` and `\1` for a line feed, a carriage return, a tab and the byte 1.

use anyhow::{Context, Result, bail};
use std::alloc::Global;
use std::fs;
use std::rt::Files;

/// Whether a line of a table is a case.
pub fn is_case(line: &str) -> bool {
    !line.is_empty() && !line.starts_with('#')
}

/// The text of a file.
pub fn text_of<R: Files + AllocGlobal>(rt: &R, path: &str) -> Result<String> {
    let bytes = fs::read(rt, path).context(format_args!("reading {path}"))?;
    let text = std::str::from_utf8(bytes.as_slice()).context("a file that is no text")?;
    Ok(String::from_str(rt.alloc(), text)?)
}

// Adds a part once for each number of a range, with the number for each `#`.
fn push_repeated(alloc: Global, text: &mut String, range: &str, part: &str) -> Result<()> {
    let (from, to) = range.split_once("..").context("a range is wanted")?;
    let from = from.parse::<u32>().context("a number is wanted")?;
    let to = to.parse::<u32>().context("a number is wanted")?;
    for number in from..to {
        let digits = format!(in alloc; "{number}")?;
        let one = part.replace(alloc, "#", digits.as_str())?;
        text.push_str(one.as_str())?;
    }
    Ok(())
}

// The most parts of a text that are repeated.
const MOST_PARTS: u32 = 1000;

// A text with each of its repeated parts written out.
fn expanded(alloc: Global, text: &str) -> Result<String> {
    let mut whole = String::new(alloc);
    let mut rest = text;
    for _ in 0..MOST_PARTS {
        let Some((before, behind)) = rest.split_once('<') else {
            break;
        };
        let (inner, behind) = behind.split_once('>').context("a part that doesn't end")?;
        let (range, part) = inner.split_once(' ').context("a part is wanted")?;
        whole.push_str(before)?;
        push_repeated(alloc, &mut whole, range, part)?;
        rest = behind;
    }
    whole.push_str(rest)?;
    Ok(whole)
}

// Adds what stands behind a backslash, of which the first byte stands for another.
fn push_escaped(bytes: &mut Vec<u8>, escaped: &[u8]) -> Result<()> {
    let (byte, rest) = match escaped {
        [b'n', rest @ ..] => (b'\n', rest),
        [b'r', rest @ ..] => (b'\r', rest),
        [b't', rest @ ..] => (b'\t', rest),
        [b'1', rest @ ..] => (1, rest),
        _ => bail!("a backslash with no meaning"),
    };
    bytes.push(byte)?;
    bytes.extend_from_slice(rest)?;
    Ok(())
}

/// The bytes of a text, with its parts repeated and its backslashes read.
pub fn written_out(alloc: Global, text: &str) -> Result<Vec<u8>> {
    let text = expanded(alloc, text)?;
    let mut parts = text.split('\\');
    let mut bytes = Vec::new(alloc);
    if let Some(front) = parts.next() {
        bytes.extend_from_slice(front.as_bytes())?;
    }
    for part in parts {
        push_escaped(&mut bytes, part.as_bytes())?;
    }
    Ok(bytes)
}

// The text of a file with one edit.
fn edited<R: Files + AllocGlobal>(rt: &R, edit: &str) -> Result<Vec<u8>> {
    let (path, edit) = edit.split_once('|').context("a path is wanted")?;
    let (old, new) = edit.split_once('|').context("an edit is wanted")?;
    let text = text_of(rt, path)?;
    let (before, behind) = text.split_once(old).context("no place for the edit")?;
    let alloc = rt.alloc();
    let text = format!(in alloc; "{before}{new}{behind}")?;
    written_out(alloc, text.as_str())
}

/// The bytes of a case.
pub fn bytes_of<R: Files + AllocGlobal>(rt: &R, line: &str) -> Result<Vec<u8>> {
    let (kind, what) = line.split_once(' ').unwrap_or((line, ""));
    match kind {
        "text" => written_out(rt.alloc(), what),
        "edit" => edited(rt, what),
        "file" => Ok(fs::read(rt, what).context(format_args!("reading {what}"))?),
        _ => bail!("no kind of case: {kind}"),
    }
}
