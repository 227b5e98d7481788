//! Settings whose values aren't modelled.

ghost use Rattle.std.specs.Prelude.{◌≡◌, ◌<◌, ◌==◌, ◌^◌, [], Some, IfOk, codes, false, length, option_map, unwrap_or};
ghost use Rattle.std.specs.Option.{option_copied, option_map_or};
ghost use Rattle.std.specs.Str.{bytes_eq};
ghost use Rattle.words.specs.Firsts.{unless_fault};
ghost use Rattle.words.specs.OrMemory.{OrMemory};
ghost use Rattle.cell_parts.specs.CellViews.{role_of as role_view};
ghost use Rattle.cell_profile.specs.Takes.{take_of};
ghost use Rattle.cell_readings.specs.Errors.{fault_of};
ghost use Rattle.cell_readings.specs.Roles.{role_reading};
ghost use Rattle.cells.specs.Faults.{Unmodelled, value_fault};
ghost use Rattle.cells.specs.Readings.{choice_reading, require_reading, table_reading};
ghost use Rattle.cells.specs.Takes.{suits as suits_of};
ghost use Rattle.cram_image.specs.Image.{bits};
ghost use Rattle.named_graph.specs.Standing.{StandsInTiles};

use crate::choices::{choice_value, take_at};
use crate::errors::CellError;
use cell_parts::Role;
use cell_profile::{Choice, Require, TableKind, Take};
use cram_image::Image;
use named_graph::NamedGraph;
use rr_ids::{Name, Text, TileId};
use setting_values::{value_at, word_digits};
use std::alloc::{AllocError, Global};

// The text of a value, or `?` where there is none.
fn value_text(alloc: Global, value: Option<&Name>) -> Result<Text, AllocError>
    ensures { IfOk result (λ text. text ≡ unwrap_or (option_copied value.entry) (codes "?")) }
{
    match value {
        Some(name) => Text::new(alloc, name.bytes()),
        None => Text::new(alloc, b"?"),
    }
}

// A value that isn't modelled, or `?` where there is none.
fn unmodelled(
    alloc: Global,
    cell: &Name,
    setting: &[u8],
    value: Option<&Name>,
) -> Result<CellError, AllocError>
    ensures { IfOk result (λ e. fault_of e ≡ Some (Unmodelled cell.now setting.now (unwrap_or (option_copied value.entry) (codes "?")))) }
{
    let text = value_text(alloc, value)?;
    Ok(CellError::Unmodelled(cell.copy()?, Text::new(alloc, setting)?, text))
}

// Whether a value is there and is the one that is required.
fn is_value(value: Option<&Name>, required: &Name) -> bool
    ensures { result ≡ option_map_or (bytes_eq required.now) (option_copied value.entry) false }
{
    match value {
        Some(name) => required.bytes() == name.bytes(),
        None => false,
    }
}

/// A required enum hasn't the value that is required.
#[tactic(auto, using(crate::proofs::Passing::passes, crate::proofs::Passing::fails, crate::proofs::Passing::is_named))]
pub(crate) fn require_fault<G: NamedGraph>(
    alloc: Global,
    graph: &G,
    image: &Image,
    cell: &Name,
    t: TileId,
    require: &Require,
) -> Result<(), CellError>
    requires stands { StandsInTiles (G.graph graph.now) }
    requires there { t < length (G.graph graph.now).grid.tiles }
    ensures { OrMemory (λ done. done) fault_of result (unless_fault (value_fault (require_reading (G.graph graph.now) (bits image.now) cell.now t require.now)) tt) }
{
    let value = value_at(graph, image, t, &require.setting);
    if is_value(value, &require.value) {
        return Ok(());
    }
    Err(unmodelled(alloc, cell, require.setting.bytes(), value)?)
}

// Whether there are as many bits as assignments of bits to pins.
fn has_each_assignment(bits: usize, pins: usize) -> bool
    ensures { result ≡ (bits == 2 ^ pins) }
{
    if pins >= 64 {
        return false;
    }
    bits == 1 << pins
}

/// The word of a table isn't there, or hasn't a bit for each assignment of bits to its pins.
#[tactic(auto, using(crate::proofs::Passing::passes, crate::proofs::Passing::fails, crate::proofs::Passing::is_named, crate::proofs::Passing::table_is))]
pub(crate) fn table_fault<G: NamedGraph>(
    alloc: Global,
    graph: &G,
    image: &Image,
    cell: &Name,
    t: TileId,
    table: &TableKind,
) -> Result<(), CellError>
    requires stands { StandsInTiles (G.graph graph.now) }
    requires there { t < length (G.graph graph.now).grid.tiles }
    ensures { OrMemory (λ done. done) fault_of result (unless_fault (value_fault (table_reading (G.graph graph.now) (bits image.now) cell.now t table.now)) tt) }
{
    let Some(word) = graph.word_named(t, &table.word) else {
        return Err(unmodelled(alloc, cell, table.word.bytes(), None)?);
    };
    if has_each_assignment(word.bits.len(), table.pins.len()) {
        return Ok(());
    }
    let digits = word_digits(alloc, image, graph.tile(t), word)?;
    Err(CellError::Unmodelled(
        cell.copy()?,
        Text::new(alloc, table.word.bytes())?,
        Text::from_vec(digits),
    ))
}

// The bytes of the setting of a choice; none where it has none.
fn setting_bytes(choice: &Choice) -> &[u8]
    ensures { result.now ≡ unwrap_or choice.now.setting [] }
{
    match &choice.setting {
        Some(name) => name.bytes(),
        None => &[],
    }
}

/// A choice has no case for the value of its setting.
#[tactic(auto, using(crate::proofs::Passing::passes, crate::proofs::Passing::fails, crate::proofs::Passing::is_named))]
pub fn choice_fault<G: NamedGraph>(
    alloc: Global,
    graph: &G,
    image: &Image,
    cell: &Name,
    t: TileId,
    choice: &Choice,
) -> Result<(), CellError>
    requires stands { StandsInTiles (G.graph graph.now) }
    requires there { t < length (G.graph graph.now).grid.tiles }
    ensures { OrMemory (λ done. done) fault_of result (unless_fault (value_fault (choice_reading (G.graph graph.now) (bits image.now) cell.now t choice.now)) tt) }
{
    if take_at(graph, image, t, choice).is_some() {
        return Ok(());
    }
    let value = choice_value(graph, image, t, choice);
    Err(unmodelled(alloc, cell, setting_bytes(choice), value)?)
}

// Whether the mode of a pad is that of its role.
fn suits(role: Role, take: Option<&Take>) -> bool
    ensures { result ≡ option_map_or (suits_of (role_view role)) (option_map (λ t. take_of t.now) take.entry) false }
{
    match (role, take) {
        (Role::Input, Some(Take::In)) => true,
        (Role::Output, Some(Take::Out)) => true,
        (Role::Clock, Some(Take::In)) => true,
        _ => false,
    }
}

/// A named pad hasn't the mode of its role.
#[tactic(auto, using(crate::proofs::Passing::passes, crate::proofs::Passing::fails, crate::proofs::Passing::is_named))]
pub fn pad_fault<G: NamedGraph>(
    alloc: Global,
    graph: &G,
    image: &Image,
    cell: &Name,
    role: Role,
    t: TileId,
    mode: &Choice,
) -> Result<(), CellError>
    requires stands { StandsInTiles (G.graph graph.now) }
    requires there { t < length (G.graph graph.now).grid.tiles }
    ensures { OrMemory (λ done. done) fault_of result (unless_fault (value_fault (role_reading (G.graph graph.now) (bits image.now) cell.now (role_view role) t mode.now)) tt) }
{
    if suits(role, take_at(graph, image, t, mode)) {
        return Ok(());
    }
    let value = choice_value(graph, image, t, mode);
    Err(unmodelled(alloc, cell, setting_bytes(mode), value)?)
}
