//! Wires under numbers.

ghost use Rattle.std.specs.Prelude.{◌≡◌, true};
ghost use Rattle.wire_names.specs.Kept.{CanBeKept};
ghost use Rattle.wire_names.specs.LentNames.{wire_name};

use anyhow::{Context, Result, bail};
use case_tables::{push_line, push_number, push_word};
use rr_ids::{Id, WireId};
use std::alloc::Global;
use wire_names::{Names, WireName};

/// The text of a wire: `ROW COLUMN BASE`, `wide BASE` or `ignored`.
pub fn text_of(alloc: Global, wire: &WireName<'_>) -> Result<Vec<u8>> {
    let mut text = Vec::new(alloc);
    let base = match wire {
        WireName::Local { row, col, base } => {
            let place = format!(in alloc; "{row} {col} ")?;
            text.extend_from_slice(place.as_bytes())?;
            base
        }
        WireName::Wide { base } => {
            text.extend_from_slice(b"wide ")?;
            base
        }
        WireName::Ignored => b"ignored".as_slice(),
    };
    text.extend_from_slice(base)?;
    Ok(text)
}

// Whether a wire has a base of 1 to 255 bytes.
fn can_be_kept(wire: &WireName<'_>) -> bool
    ensures { result ≡ true → CanBeKept (wire_name wire.now) }
{
    match wire {
        WireName::Local { base, .. } => !base.is_empty() && base.len() <= 255,
        WireName::Wide { base } => !base.is_empty() && base.len() <= 255,
        WireName::Ignored => false,
    }
}

// The wire of a text.
fn wire_of(text: &str) -> Result<WireName<'_>> {
    if text == "ignored" {
        return Ok(WireName::Ignored);
    }
    if let Some(base) = text.strip_prefix("wide ") {
        let base = base.as_bytes();
        return Ok(WireName::Wide { base });
    }
    let (row, rest) = text.split_once(' ').context("a row is wanted")?;
    let (col, base) = rest.split_once(' ').context("a column is wanted")?;
    Ok(WireName::Local {
        row: row.parse::<i32>().context("a row is wanted")?,
        col: col.parse::<i32>().context("a column is wanted")?,
        base: base.as_bytes(),
    })
}

// Adds a number, or `none`.
fn push_id(alloc: Global, text: &mut Vec<u8>, id: Option<WireId>) -> Result<()> {
    match id {
        Some(id) => push_number(alloc, text, id.to_u32()),
        None => push_word(text, b"none"),
    }
}

// The number that a wire has once it is kept.
fn interned(names: &mut Names, wire: &WireName<'_>) -> Result<WireId> {
    if !can_be_kept(wire) {
        bail!("a wire that can't be kept");
    }
    Ok(names.intern(wire)?)
}

// Adds the wire of a number, or `none`.
fn push_name(alloc: Global, text: &mut Vec<u8>, names: &Names, number: &str) -> Result<()> {
    let number = number.parse::<u32>().context("a number is wanted")?;
    match names.name(WireId::from_u32(number)) {
        Some(wire) => push_word(text, text_of(alloc, &wire)?.as_slice()),
        None => push_word(text, b"none"),
    }
}

// Adds what a call answers.
fn push_answer(alloc: Global, text: &mut Vec<u8>, names: &mut Names, line: &str) -> Result<()> {
    let (call, what) = line.split_once(' ').context("a call is wanted")?;
    push_line(text, 1, call)?;
    match call {
        "intern" => {
            let id = interned(names, &wire_of(what)?)?;
            push_id(alloc, text, Some(id))
        }
        "find" => push_id(alloc, text, names.find(&wire_of(what)?)),
        "name" => push_name(alloc, text, names, what),
        _ => bail!("no call: {call}"),
    }
}

/// What the calls of lines answer, in turn: `intern WIRE` and `find WIRE` a number, `name NUMBER` a wire.
pub fn answer_to(alloc: Global, bytes: &[u8]) -> Result<Vec<u8>> {
    let mut names = Names::new(alloc);
    let mut text = Vec::from_slice(alloc, b"wires")?;
    for line in std::str::from_utf8(bytes)?.lines() {
        push_answer(alloc, &mut text, &mut names, line)?;
    }
    Ok(text)
}
