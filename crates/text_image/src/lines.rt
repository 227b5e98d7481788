//! The first line of a text that names what isn't in the graph.

ghost use Rattle.std.specs.Prelude.{◌<◌, ◌≡◌, flat_map, length, option_map};
ghost use Rattle.design_checks.specs.LineChecks.{arc_faults, enum_faults, line_faults, lines_faults, lowest_line, section_faults, unknown_faults, word_faults};
ghost use Rattle.named_graph.specs.Standing.{settings_at, StandsInTiles};
ghost use Rattle.text_image.specs.Faults.{fault_view};

use crate::faults::{LineError, TextFault, earlier, fault};
use config_text::{ArcLine, Config, EnumLine, TileText, UnknownLine, WordLine};
use named_graph::NamedGraph;
use rr_ids::TileId;
use tile_grid::Tile;

// What is wrong with the line of an arc.
fn arc_fault<G: NamedGraph>(graph: &G, t: TileId, tile: &Tile, arc: &ArcLine) -> Option<TextFault>
    requires { t < length (G.graph graph.now).grid.tiles }
    ensures { option_map fault_view result ≡ lowest_line (arc_faults (G.graph graph.now) t tile.now arc.now) }
{
    if tile.place.is_none() {
        return fault(arc.line, LineError::NoPlace);
    }
    let Some(mux) = graph.mux_named(t, &arc.sink) else {
        return fault(arc.line, LineError::UnknownSink);
    };
    match graph.pattern_named(mux, &arc.source) {
        Some(_) => None,
        None => fault(arc.line, LineError::UnknownSource),
    }
}

// The first by line among the lines of arcs.
fn arcs_fault<G: NamedGraph>(
    graph: &G,
    t: TileId,
    tile: &Tile,
    arcs: &[ArcLine],
) -> Option<TextFault>
    requires { t < length (G.graph graph.now).grid.tiles }
    ensures { option_map fault_view result ≡ lowest_line (flat_map (arc_faults (G.graph graph.now) t tile.now) arcs.now) }
{
    let mut found = None;
    for arc in arcs {
        found = earlier(found, arc_fault(graph, t, tile, arc));
    }
    found
}

// What is wrong with the line of a word.
fn word_fault<G: NamedGraph>(graph: &G, t: TileId, word: &WordLine) -> Option<TextFault>
    requires { t < length (G.graph graph.now).grid.tiles }
    ensures { option_map fault_view result ≡ lowest_line (word_faults (settings_at (G.graph graph.now) t) word.now) }
{
    match graph.word_named(t, &word.name) {
        None => fault(word.line, LineError::UnknownSetting),
        Some(found) if found.bits.len() == word.bits.len() => None,
        Some(_) => fault(word.line, LineError::WordLength),
    }
}

// The first by line among the lines of words.
fn words_fault<G: NamedGraph>(graph: &G, t: TileId, words: &[WordLine]) -> Option<TextFault>
    requires { t < length (G.graph graph.now).grid.tiles }
    ensures { option_map fault_view result ≡ lowest_line (flat_map (word_faults (settings_at (G.graph graph.now) t)) words.now) }
{
    let mut found = None;
    for word in words {
        found = earlier(found, word_fault(graph, t, word));
    }
    found
}

// What is wrong with the line of an enum.
fn enum_fault<G: NamedGraph>(graph: &G, t: TileId, line: &EnumLine) -> Option<TextFault>
    requires { t < length (G.graph graph.now).grid.tiles }
    ensures { option_map fault_view result ≡ lowest_line (enum_faults (settings_at (G.graph graph.now) t) line.now) }
{
    if graph.enum_named(t, &line.name).is_none() {
        return fault(line.line, LineError::UnknownSetting);
    }
    match graph.option_named(t, &line.name, &line.value) {
        Some(_) => None,
        None => fault(line.line, LineError::UnknownValue),
    }
}

// The first by line among the lines of enums.
fn enums_fault<G: NamedGraph>(graph: &G, t: TileId, enums: &[EnumLine]) -> Option<TextFault>
    requires { t < length (G.graph graph.now).grid.tiles }
    ensures { option_map fault_view result ≡ lowest_line (flat_map (enum_faults (settings_at (G.graph graph.now) t)) enums.now) }
{
    let mut found = None;
    for line in enums {
        found = earlier(found, enum_fault(graph, t, line));
    }
    found
}

// What is wrong with the line of a raw bit.
fn unknown_fault(tile: &Tile, line: &UnknownLine) -> Option<TextFault>
    ensures { option_map fault_view result ≡ lowest_line (unknown_faults tile.now line.now) }
{
    if u32::from(line.frame) < tile.cols && u32::from(line.bit) < tile.rows {
        None
    } else {
        fault(line.line, LineError::OutsideTile)
    }
}

// The first by line among the lines of raw bits.
fn unknowns_fault(tile: &Tile, unknowns: &[UnknownLine]) -> Option<TextFault>
    ensures { option_map fault_view result ≡ lowest_line (flat_map (unknown_faults tile.now) unknowns.now) }
{
    let mut found = None;
    for line in unknowns {
        found = earlier(found, unknown_fault(tile, line));
    }
    found
}

// The first by line among the lines of a section.
#[tactic(auto, using(crate::proofs::First::first_of_lines))]
fn lines_fault<G: NamedGraph>(
    graph: &G,
    t: TileId,
    tile: &Tile,
    text: &TileText,
) -> Option<TextFault>
    requires { t < length (G.graph graph.now).grid.tiles }
    ensures { option_map fault_view result ≡ lowest_line (lines_faults (G.graph graph.now) text.now t tile.now (settings_at (G.graph graph.now) t)) }
{
    let arcs = arcs_fault(graph, t, tile, text.arcs.as_slice());
    let words = words_fault(graph, t, text.words.as_slice());
    let enums = enums_fault(graph, t, text.enums.as_slice());
    let unknowns = unknowns_fault(tile, text.unknowns.as_slice());
    earlier(earlier(earlier(arcs, words), enums), unknowns)
}

// The first by line in a section.
#[tactic(auto, using(crate::proofs::First::in_section))]
fn section_fault<G: NamedGraph>(graph: &G, text: &TileText) -> Option<TextFault>
    requires { StandsInTiles (G.graph graph.now) }
    ensures { option_map fault_view result ≡ lowest_line (section_faults (G.graph graph.now) text.now) }
{
    match graph.tile_named(&text.tile) {
        Some(t) => lines_fault(graph, t, graph.tile(t), text),
        None => fault(text.line, LineError::UnknownTile),
    }
}

// The first by line in all sections.
fn sections_fault<G: NamedGraph>(graph: &G, sections: &[TileText]) -> Option<TextFault>
    requires { StandsInTiles (G.graph graph.now) }
    ensures { option_map fault_view result ≡ lowest_line (flat_map (section_faults (G.graph graph.now)) sections.now) }
{
    let mut found = None;
    for text in sections {
        found = earlier(found, section_fault(graph, text));
    }
    found
}

/// The first line of a text, by number, that names what isn't in the graph, and of equal numbers the first in written order;
/// `None` exactly where there is none. Takes no memory.
pub fn first_fault<G: NamedGraph>(graph: &G, config: &Config) -> Option<TextFault>
    requires { StandsInTiles (G.graph graph.now) }
    ensures { option_map fault_view result ≡ lowest_line (line_faults (G.graph graph.now) config.now) }
{
    sections_fault(graph, config.tiles.as_slice())
}
