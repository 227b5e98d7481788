//! The device bits of settings.

ghost use Rattle.std.specs.Prelude.{◌≡◌, ◌<◌, ◌++◌, [], IfOk, OnOk, flat_map, length};
ghost use Rattle.std.specs.Option.{option_copied, option_map_or};
ghost use Rattle.patterns.specs.Bits.{device_bit as device_bit_of};
ghost use Rattle.records.specs.Database.{EnumOption as OptionRecord, EnumSetting as EnumRecord, WordSetting as WordRecord};
ghost use Rattle.records.specs.Grid.{origin_of};
ghost use Rattle.cells.specs.Resolved.{bits_of_setting};
ghost use Rattle.fabric.specs.MuxBits.{bits_named};
ghost use Rattle.named_graph.specs.Standing.{settings_at};

use bits_db::{EnumOption, EnumSetting, Pattern, WordSetting};
use named_graph::NamedGraph;
use rr_ids::{DeviceBit, List, Name, TileId};
use std::alloc::{AllocError, Global};
use text_cut::PatternBit;
use tile_grid::Tile;

// The device bit of a pattern's bit.
fn device_bit(tile: &Tile, p: &PatternBit) -> DeviceBit
    ensures { result ≡ device_bit_of (origin_of tile.now) p.now }
{
    DeviceBit {
        frame: tile.start_frame + u32::from(p.frame),
        bit: tile.start_bit + u32::from(p.bit),
    }
}

// Adds the device bits that a pattern names.
#[tactic(auto, using(crate::proofs::Walking::map_more, crate::proofs::Walking::map_all))]
fn add_pattern(
    bits: &mut Vec<DeviceBit>,
    tile: &Tile,
    pattern: &[PatternBit],
) -> Result<(), AllocError>
    ensures { OnOk result (bits.new.items ≡ bits.old.items ++ bits_named (origin_of tile.now) pattern.now) }
{
    for p in pattern {
        bits.push(device_bit(tile, p))?;
    }
    Ok(())
}

// Adds the device bits that patterns name.
#[tactic(auto, using(crate::proofs::Walking::flat_more, crate::proofs::Walking::flat_all))]
fn add_patterns(
    bits: &mut Vec<DeviceBit>,
    tile: &Tile,
    patterns: &[Pattern],
) -> Result<(), AllocError>
    ensures { OnOk result (bits.new.items ≡ bits.old.items ++ flat_map (bits_named (origin_of tile.now)) patterns.now) }
{
    for pattern in patterns {
        add_pattern(bits, tile, pattern.as_slice())?;
    }
    Ok(())
}

// Adds the device bits that the patterns of options name.
#[tactic(auto, using(crate::proofs::Walking::flat_more, crate::proofs::Walking::flat_all))]
fn add_options(
    bits: &mut Vec<DeviceBit>,
    tile: &Tile,
    options: &[EnumOption],
) -> Result<(), AllocError>
    ensures { OnOk result (bits.new.items ≡ bits.old.items ++ flat_map (λ (o : OptionRecord). bits_named (origin_of tile.now) o.bits) options.now) }
{
    for option in options {
        add_pattern(bits, tile, option.bits.as_slice())?;
    }
    Ok(())
}

// Adds the device bits of a word, if it is there.
fn add_word(
    bits: &mut Vec<DeviceBit>,
    tile: &Tile,
    word: Option<&WordSetting>,
) -> Result<(), AllocError>
    ensures { OnOk result (bits.new.items ≡ bits.old.items
        ++ option_map_or (λ (w : WordRecord). flat_map (bits_named (origin_of tile.now)) w.bits) (option_copied word.entry) []) }
{
    match word {
        Some(word) => add_patterns(bits, tile, word.bits.as_slice()),
        None => Ok(()),
    }
}

// Adds the device bits of an enum, if it is there.
fn add_enum(
    bits: &mut Vec<DeviceBit>,
    tile: &Tile,
    setting: Option<&EnumSetting>,
) -> Result<(), AllocError>
    ensures { OnOk result (bits.new.items ≡ bits.old.items
        ++ option_map_or (λ (e : EnumRecord). flat_map (λ o. bits_named (origin_of tile.now) o.bits) e.options) (option_copied setting.entry) []) }
{
    match setting {
        Some(setting) => add_options(bits, tile, setting.options.as_slice()),
        None => Ok(()),
    }
}

// Adds the device bits of the word and the enum of a name in a tile.
#[tactic(auto, using(crate::proofs::Walking::both_added))]
fn add_setting<G: NamedGraph>(
    bits: &mut Vec<DeviceBit>,
    graph: &G,
    t: TileId,
    tile: &Tile,
    name: &Name,
) -> Result<(), AllocError>
    requires { t < length (G.graph graph.now).grid.tiles }
    ensures { OnOk result (bits.new.items ≡ bits.old.items ++ bits_of_setting (origin_of tile.now) (settings_at (G.graph graph.now) t) name.now) }
{
    add_word(bits, tile, graph.word_named(t, name))?;
    add_enum(bits, tile, graph.enum_named(t, name))
}

/// The device bits of the settings of names in a tile, in the order of the names and in file order.
#[tactic(auto, using(crate::proofs::Walking::flat_more, crate::proofs::Walking::flat_all))]
pub(crate) fn bits_of_settings<G: NamedGraph>(
    alloc: Global,
    graph: &G,
    t: TileId,
    tile: &Tile,
    names: &[Name],
) -> Result<List<DeviceBit>, AllocError>
    requires { t < length (G.graph graph.now).grid.tiles }
    ensures { IfOk result (λ bits. bits ≡ flat_map (bits_of_setting (origin_of tile.now) (settings_at (G.graph graph.now) t)) names.now) }
{
    let mut bits = Vec::new(alloc);
    for name in names {
        add_setting(&mut bits, graph, t, tile, name)?;
    }
    Ok(List::from_vec(bits))
}
