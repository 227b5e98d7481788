//! The lines of a text, written into an image.

ghost use Rattle.std.specs.Prelude.{◌<◌, ◌≡◌, Some, OnOk, ◌∷◌, [], flat_map, if◌then◌else◌, length, map, slice_get, zip};
ghost use Rattle.cram_image.specs.Image.{bits};
ghost use Rattle.fabric.specs.Image.{after_writes, arc_writes, enum_writes, section_writes, tile_writes, unknown_writes, word_writes};
ghost use Rattle.named_graph.specs.Standing.{settings_at, StandsInTiles};
ghost use Rattle.patterns.specs.Bits.{device_bit as device_bit_of};
ghost use Rattle.patterns.specs.Written.{opposite, with_bit, written};
ghost use Rattle.records.specs.Grid.{origin_of};
ghost use Rattle.text_image.specs.Written.{word_bit_write};

use bits_db::Pattern;
use config_text::{ArcLine, EnumLine, TileText, UnknownLine, WordLine};
use cram_image::Image;
use named_graph::NamedGraph;
use rr_ids::{DeviceBit, TileId};
use std::alloc::AllocError;
use text_cut::PatternBit;
use tile_grid::Tile;

// Makes a bit 1 or 0.
fn put(image: &mut Image, b: DeviceBit, value: bool) -> Result<(), AllocError>
    ensures { OnOk result (bits image.new ≡ with_bit (bits image.old) b value) }
{
    if value {
        image.set(b)?;
    } else {
        image.clear(b);
    }
    Ok(())
}

// The device bit of a pattern's bit.
fn device_bit(tile: &Tile, p: &PatternBit) -> DeviceBit
    ensures { result ≡ device_bit_of (origin_of tile.now) p.now }
{
    DeviceBit {
        frame: tile.start_frame + u32::from(p.frame),
        bit: tile.start_bit + u32::from(p.bit),
    }
}

// Writes a pattern, bit by bit in its order.
fn write_pattern(image: &mut Image, tile: &Tile, pattern: &[PatternBit]) -> Result<(), AllocError>
    ensures { OnOk result (bits image.new ≡ written (bits image.old) (origin_of tile.now) pattern.now) }
{
    for p in pattern {
        put(image, device_bit(tile, p), p.set)?;
    }
    Ok(())
}

// Writes the opposite of a pattern.
fn write_opposite(image: &mut Image, tile: &Tile, pattern: &[PatternBit]) -> Result<(), AllocError>
    ensures { OnOk result (bits image.new ≡ written (bits image.old) (origin_of tile.now) (opposite pattern.now)) }
{
    for p in pattern {
        put(image, device_bit(tile, p), !p.set)?;
    }
    Ok(())
}

// Writes a bit of a word: its pattern, or the opposite where it is 0.
fn write_word_bit(
    image: &mut Image,
    tile: &Tile,
    pattern: &Pattern,
    value: bool,
) -> Result<(), AllocError>
    ensures { OnOk result (bits image.new ≡ after_writes (bits image.old) (word_bit_write (origin_of tile.now) (pattern.now, value) ∷ [])) }
{
    if value {
        write_pattern(image, tile, pattern.as_slice())
    } else {
        write_opposite(image, tile, pattern.as_slice())
    }
}

// Writes the bits of a word, the lowest first.
fn write_word_bits(
    image: &mut Image,
    tile: &Tile,
    patterns: &[Pattern],
    values: &[bool],
) -> Result<(), AllocError>
    ensures { OnOk result (bits image.new ≡ after_writes (bits image.old) (map (word_bit_write (origin_of tile.now)) (zip patterns.now values.now))) }
{
    for i in 0..patterns.len().min(values.len()) {
        write_word_bit(image, tile, &patterns[i], values[i])?;
    }
    Ok(())
}

// Writes the pattern of the arc of a line.
#[tactic(auto, using(crate::proofs::Writing::arc_written))]
fn write_arc<G: NamedGraph>(
    graph: &G,
    image: &mut Image,
    t: TileId,
    tile: &Tile,
    arc: &ArcLine,
) -> Result<(), AllocError>
    requires stands { StandsInTiles (G.graph graph.now) }
    requires there { t < length (G.graph graph.now).grid.tiles }
    requires tile { Some tile.now ≡ slice_get (G.graph graph.now).grid.tiles t }
    ensures { OnOk result (bits image.new ≡ after_writes (bits image.old) (arc_writes (G.graph graph.now) t arc.now)) }
{
    let Some(mux) = graph.mux_named(t, &arc.sink) else {
        return Ok(());
    };
    let Some(pattern) = graph.pattern_named(mux, &arc.source) else {
        return Ok(());
    };
    write_pattern(image, tile, pattern)
}

// Writes the patterns of the arcs of lines.
fn write_arcs<G: NamedGraph>(
    graph: &G,
    image: &mut Image,
    t: TileId,
    tile: &Tile,
    arcs: &[ArcLine],
) -> Result<(), AllocError>
    requires stands { StandsInTiles (G.graph graph.now) }
    requires there { t < length (G.graph graph.now).grid.tiles }
    requires tile { Some tile.now ≡ slice_get (G.graph graph.now).grid.tiles t }
    ensures { OnOk result (bits image.new ≡ after_writes (bits image.old) (flat_map (arc_writes (G.graph graph.now) t) arcs.now)) }
{
    for arc in arcs {
        write_arc(graph, image, t, tile, arc)?;
    }
    Ok(())
}

// Writes the bits of the word of a line.
fn write_word<G: NamedGraph>(
    graph: &G,
    image: &mut Image,
    t: TileId,
    tile: &Tile,
    word: &WordLine,
) -> Result<(), AllocError>
    requires { t < length (G.graph graph.now).grid.tiles }
    ensures { OnOk result (bits image.new ≡ after_writes (bits image.old) (word_writes (origin_of tile.now) (settings_at (G.graph graph.now) t) word.now)) }
{
    match graph.word_named(t, &word.name) {
        Some(found) => write_word_bits(image, tile, found.bits.as_slice(), word.bits.as_slice()),
        None => Ok(()),
    }
}

// Writes the bits of the words of lines.
fn write_words<G: NamedGraph>(
    graph: &G,
    image: &mut Image,
    t: TileId,
    tile: &Tile,
    words: &[WordLine],
) -> Result<(), AllocError>
    requires { t < length (G.graph graph.now).grid.tiles }
    ensures { OnOk result (bits image.new ≡ after_writes (bits image.old) (flat_map (word_writes (origin_of tile.now) (settings_at (G.graph graph.now) t)) words.now)) }
{
    for word in words {
        write_word(graph, image, t, tile, word)?;
    }
    Ok(())
}

// Writes the pattern of the option of a line.
fn write_enum<G: NamedGraph>(
    graph: &G,
    image: &mut Image,
    t: TileId,
    tile: &Tile,
    line: &EnumLine,
) -> Result<(), AllocError>
    requires { t < length (G.graph graph.now).grid.tiles }
    ensures { OnOk result (bits image.new ≡ after_writes (bits image.old) (enum_writes (origin_of tile.now) (settings_at (G.graph graph.now) t) line.now)) }
{
    match graph.option_named(t, &line.name, &line.value) {
        Some(option) => write_pattern(image, tile, option.bits.as_slice()),
        None => Ok(()),
    }
}

// Writes the patterns of the options of lines.
fn write_enums<G: NamedGraph>(
    graph: &G,
    image: &mut Image,
    t: TileId,
    tile: &Tile,
    enums: &[EnumLine],
) -> Result<(), AllocError>
    requires { t < length (G.graph graph.now).grid.tiles }
    ensures { OnOk result (bits image.new ≡ after_writes (bits image.old) (flat_map (enum_writes (origin_of tile.now) (settings_at (G.graph graph.now) t)) enums.now)) }
{
    for line in enums {
        write_enum(graph, image, t, tile, line)?;
    }
    Ok(())
}

// Sets the raw bit of a line.
fn write_unknown(image: &mut Image, tile: &Tile, line: &UnknownLine) -> Result<(), AllocError>
    ensures { OnOk result (bits image.new ≡ after_writes (bits image.old) (unknown_writes (origin_of tile.now) line.now)) }
{
    let bit = PatternBit {
        frame: line.frame,
        bit: line.bit,
        set: true,
    };
    put(image, device_bit(tile, &bit), true)
}

// Sets the raw bits of lines.
fn write_unknowns(
    image: &mut Image,
    tile: &Tile,
    unknowns: &[UnknownLine],
) -> Result<(), AllocError>
    ensures { OnOk result (bits image.new ≡ after_writes (bits image.old) (flat_map (unknown_writes (origin_of tile.now)) unknowns.now)) }
{
    for line in unknowns {
        write_unknown(image, tile, line)?;
    }
    Ok(())
}

// Writes the lines of a section: arcs, words, enums, then raw bits.
#[tactic(auto, using(crate::proofs::Writing::section_written))]
fn write_lines<G: NamedGraph>(
    graph: &G,
    image: &mut Image,
    t: TileId,
    tile: &Tile,
    text: &TileText,
) -> Result<(), AllocError>
    requires stands { StandsInTiles (G.graph graph.now) }
    requires there { t < length (G.graph graph.now).grid.tiles }
    requires tile { Some tile.now ≡ slice_get (G.graph graph.now).grid.tiles t }
    ensures { OnOk result (bits image.new ≡ after_writes (bits image.old) (section_writes (G.graph graph.now) text.now t tile.now (settings_at (G.graph graph.now) t))) }
{
    write_arcs(graph, image, t, tile, text.arcs.as_slice())?;
    write_words(graph, image, t, tile, text.words.as_slice())?;
    write_enums(graph, image, t, tile, text.enums.as_slice())?;
    write_unknowns(image, tile, text.unknowns.as_slice())
}

// Writes a section where its tile is in the grid.
#[tactic(auto, using(crate::proofs::Writing::in_tile))]
fn write_section<G: NamedGraph>(
    graph: &G,
    image: &mut Image,
    text: &TileText,
) -> Result<(), AllocError>
    requires { StandsInTiles (G.graph graph.now) }
    ensures { OnOk result (bits image.new ≡ after_writes (bits image.old) (tile_writes (G.graph graph.now) text.now)) }
{
    match graph.tile_named(&text.tile) {
        Some(t) => write_lines(graph, image, t, graph.tile(t), text),
        None => Ok(()),
    }
}

/// Writes all sections, one after the other.
pub(crate) fn write_sections<G: NamedGraph>(
    graph: &G,
    image: &mut Image,
    sections: &[TileText],
) -> Result<(), AllocError>
    requires { StandsInTiles (G.graph graph.now) }
    ensures { OnOk result (bits image.new ≡ after_writes (bits image.old) (flat_map (tile_writes (G.graph graph.now)) sections.now)) }
{
    for text in sections {
        write_section(graph, image, text)?;
    }
    Ok(())
}
