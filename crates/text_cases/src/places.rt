//! What names stand for at a tile's place.

use crate::wires::text_of;
use anyhow::{Context, Result};
use rr_ids::{List, Name, Rules};
use std::alloc::Global;
use wire_names::{LentRules, place};

// A list of one name.
fn one_name(alloc: Global, bytes: &[u8]) -> Result<List<Name>> {
    let mut names = List::new(alloc);
    names.push(Name::new(alloc, bytes)?)?;
    Ok(names)
}

// The rules of all cases.
fn rules(alloc: Global) -> Result<Rules> {
    Ok(Rules {
        chip_prefix: Some(Name::new(alloc, b"45K_")?),
        other_chips: one_name(alloc, b"25K_")?,
        wide: one_name(alloc, b"G_")?,
    })
}

/// What `ROW COLUMN NAME` stands for, where names begin with `45K_` on the chip and with `25K_` on another, and with `G_` for
/// the whole device; what `LentRules` says is added where it differs.
pub fn answer_to(alloc: Global, bytes: &[u8]) -> Result<Vec<u8>> {
    let rules = rules(alloc)?;
    let lent = LentRules::new(alloc, &rules)?;
    let text = std::str::from_utf8(bytes)?;
    let (row, rest) = text.split_once(' ').context("a row is wanted")?;
    let (col, name) = rest.split_once(' ').context("a column is wanted")?;
    let row = row.parse::<u8>().context("a row is wanted")?;
    let col = col.parse::<u8>().context("a column is wanted")?;
    let wire = place(row, col, name.as_bytes(), &rules);
    let mut answer = text_of(alloc, &wire)?;
    let moved = lent.slot(name.as_bytes()).at(row, col);
    if moved != wire {
        answer.extend_from_slice(text_of(alloc, &moved)?.as_slice())?;
    }
    Ok(answer)
}
