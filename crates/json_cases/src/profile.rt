//! Cell profiles.

use anyhow::Result;
use case_tables::{fault, plain_fault, push_line, push_number, push_word};
use cell_profile::{
    Case, Choice, Join, PadKind, Profile, ProfileError, RegisterKind, Require, SliceKind,
    TableKind, Take,
};
use rr_ids::{Name, Rules};
use std::alloc::Global;

// The most elements of a list that are printed.
const MOST_SHOWN: usize = 4;

// The elements of a list that are printed.
fn shown<T>(items: &[T]) -> &[T] {
    if items.len() <= MOST_SHOWN {
        return items;
    }
    &items[..MOST_SHOWN]
}

// Adds how many elements a list has, behind a word.
fn push_count(alloc: Global, text: &mut Vec<u8>, word: &str, count: usize) -> Result<()> {
    push_word(text, word.as_bytes())?;
    let digits = format!(in alloc; "{count}")?;
    push_word(text, digits.as_bytes())
}

// Adds a name, or `-`.
fn push_optional(text: &mut Vec<u8>, name: &Option<Name>) -> Result<()> {
    match name {
        Some(name) => push_word(text, name.bytes()),
        None => push_word(text, b"-"),
    }
}

// Adds how many names a list has, and the first of them.
fn push_names(alloc: Global, text: &mut Vec<u8>, word: &str, names: &[Name]) -> Result<()> {
    push_count(alloc, text, word, names.len())?;
    for name in shown(names) {
        push_word(text, name.bytes())?;
    }
    Ok(())
}

fn push_rules(alloc: Global, text: &mut Vec<u8>, rules: &Rules) -> Result<()> {
    push_optional(text, &rules.chip_prefix)?;
    push_names(alloc, text, "other_chips", rules.other_chips.as_slice())?;
    push_names(alloc, text, "wide", rules.wide.as_slice())
}

fn push_join(text: &mut Vec<u8>, join: &Join) -> Result<()> {
    push_line(text, 1, "join")?;
    push_word(text, join.tile.bytes())?;
    push_word(text, join.sink.bytes())?;
    push_word(text, join.source.bytes())
}

fn push_take(text: &mut Vec<u8>, take: &Take) -> Result<()> {
    match take {
        Take::Wire(wire) => push_word(text, wire.bytes()),
        Take::NotWire(wire) => {
            push_word(text, b"not")?;
            push_word(text, wire.bytes())
        }
        Take::Zero => push_word(text, b"0"),
        Take::One => push_word(text, b"1"),
        Take::Off => push_word(text, b"off"),
        Take::In => push_word(text, b"in"),
        Take::Out => push_word(text, b"out"),
    }
}

fn push_case(text: &mut Vec<u8>, case: &Case) -> Result<()> {
    push_word(text, b";")?;
    push_optional(text, &case.value)?;
    push_take(text, &case.take)
}

// Adds a choice: its setting, how many cases it has, and the first of them.
fn push_choice(alloc: Global, text: &mut Vec<u8>, word: &str, choice: &Choice) -> Result<()> {
    push_line(text, 3, word)?;
    push_optional(text, &choice.setting)?;
    push_count(alloc, text, "cases", choice.cases.len())?;
    for case in shown(choice.cases.as_slice()) {
        push_case(text, case)?;
    }
    Ok(())
}

fn push_requirements(alloc: Global, text: &mut Vec<u8>, requirements: &[Require]) -> Result<()> {
    push_line(text, 2, "require")?;
    push_count(alloc, text, "settings", requirements.len())?;
    for require in shown(requirements) {
        push_word(text, b";")?;
        push_word(text, require.setting.bytes())?;
        push_word(text, require.value.bytes())?;
    }
    Ok(())
}

fn push_table(alloc: Global, text: &mut Vec<u8>, table: &TableKind) -> Result<()> {
    push_line(text, 2, "table")?;
    push_word(text, table.word.bytes())?;
    push_names(alloc, text, "pins", table.pins.as_slice())?;
    push_word(text, table.out.bytes())
}

fn push_tables(alloc: Global, text: &mut Vec<u8>, tables: &[TableKind]) -> Result<()> {
    for table in tables {
        push_table(alloc, text, table)?;
    }
    Ok(())
}

fn push_register(alloc: Global, text: &mut Vec<u8>, register: &RegisterKind) -> Result<()> {
    push_line(text, 2, "register")?;
    push_word(text, register.out.bytes())?;
    push_choice(alloc, text, "data", &register.input)?;
    push_choice(alloc, text, "enable", &register.enable)?;
    push_choice(alloc, text, "reset", &register.reset)?;
    push_choice(alloc, text, "set", &register.set)?;
    push_choice(alloc, text, "clock", &register.clock)
}

fn push_registers(alloc: Global, text: &mut Vec<u8>, registers: &[RegisterKind]) -> Result<()> {
    for register in registers {
        push_register(alloc, text, register)?;
    }
    Ok(())
}

fn push_slice(alloc: Global, text: &mut Vec<u8>, slice: &SliceKind) -> Result<()> {
    push_line(text, 1, "slice")?;
    push_word(text, slice.tile.bytes())?;
    push_word(text, slice.name.bytes())?;
    push_word(text, slice.shape.bytes())?;
    push_names(alloc, text, "settings", slice.settings.as_slice())?;
    push_requirements(alloc, text, slice.require.as_slice())?;
    push_tables(alloc, text, slice.tables.as_slice())?;
    push_registers(alloc, text, slice.registers.as_slice())
}

fn push_pad(alloc: Global, text: &mut Vec<u8>, pad: &PadKind) -> Result<()> {
    push_line(text, 1, "pad")?;
    push_word(text, pad.tile.bytes())?;
    push_word(text, pad.name.bytes())?;
    push_names(alloc, text, "settings", pad.settings.as_slice())?;
    push_optional(text, &pad.in_wire)?;
    push_optional(text, &pad.out_wire)?;
    push_choice(alloc, text, "mode", &pad.mode)
}

// Adds the first slice kinds.
fn push_slices(alloc: Global, text: &mut Vec<u8>, slices: &[SliceKind]) -> Result<()> {
    for slice in shown(slices) {
        push_slice(alloc, text, slice)?;
    }
    Ok(())
}

// Adds the first pad kinds.
fn push_pads(alloc: Global, text: &mut Vec<u8>, pads: &[PadKind]) -> Result<()> {
    for pad in shown(pads) {
        push_pad(alloc, text, pad)?;
    }
    Ok(())
}

// Adds the first joins.
fn push_joins(text: &mut Vec<u8>, joins: &[Join]) -> Result<()> {
    for join in shown(joins) {
        push_join(text, join)?;
    }
    Ok(())
}

fn text_of(alloc: Global, profile: &Profile) -> Result<Vec<u8>> {
    let mut text = Vec::from_slice(alloc, b"profile")?;
    push_rules(alloc, &mut text, &profile.rules)?;
    push_count(alloc, &mut text, "joins", profile.joins.len())?;
    push_count(alloc, &mut text, "slices", profile.slices.len())?;
    push_count(alloc, &mut text, "pads", profile.pads.len())?;
    push_joins(&mut text, profile.joins.as_slice())?;
    push_slices(alloc, &mut text, profile.slices.as_slice())?;
    push_pads(alloc, &mut text, profile.pads.as_slice())?;
    Ok(text)
}

fn text_of_error(alloc: Global, error: &ProfileError) -> Result<Vec<u8>> {
    match error {
        ProfileError::NotJson => plain_fault(alloc, "NotJson"),
        ProfileError::BadShape(key) => fault(alloc, "BadShape", key.bytes()),
        ProfileError::TooLarge(limit) => fault(alloc, "TooLarge", limit.text().as_bytes()),
        ProfileError::Memory => plain_fault(alloc, "Memory"),
    }
}

/// What the reader of cell profiles answers: the rules of names, how many joins and kinds there are, and the first of
/// them part by part; of a list its length and its first elements.
pub fn answer_to(alloc: Global, bytes: &[u8]) -> Result<Vec<u8>> {
    match cell_profile::read(alloc, bytes) {
        Ok(profile) => text_of(alloc, &profile),
        Err(error) => text_of_error(alloc, &error),
    }
}
