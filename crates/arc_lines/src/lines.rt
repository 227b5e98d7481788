//! The arcs that lines name.

ghost use Rattle.std.specs.Prelude.{◌≡◌, ◌<◌, ◌++◌, IfOk, OnOk, filter_map, flat_map, length, option_to_list};
ghost use Rattle.arc_lines.specs.LineArcs.{line_place, section_places, text_places};

use crate::named::ArcNames;
use config_text::{ArcLine, Config, TileText};
use rr_ids::{ArcId, TileId};
use std::alloc::{AllocError, Global};

// The arc that a line names in a tile.
fn line_arc<G: ArcNames>(graph: &G, t: TileId, line: &ArcLine) -> Option<ArcId>
    requires { t < length (G.graph graph.now).grid.tiles }
    ensures { result ≡ line_place (G.graph graph.now) t line.now }
{
    let m = graph.mux_named(t, &line.sink)?;
    graph.arc_named(m, &line.source)
}

// Adds an arc that is there.
fn add_found(found: &mut Vec<ArcId>, arc: Option<ArcId>) -> Result<(), AllocError>
    ensures { OnOk result (found.new.items ≡ found.old.items ++ option_to_list arc) }
{
    if let Some(arc) = arc {
        found.push(arc)?;
    }
    Ok(())
}

// Adds the arcs that lines name in a tile.
fn add_lines<G: ArcNames>(
    graph: &G,
    found: &mut Vec<ArcId>,
    t: TileId,
    lines: &[ArcLine],
) -> Result<(), AllocError>
    requires { t < length (G.graph graph.now).grid.tiles }
    ensures { OnOk result (found.new.items ≡ found.old.items ++ filter_map (line_place (G.graph graph.now) t) lines.now) }
{
    for line in lines {
        add_found(found, line_arc(graph, t, line))?;
    }
    Ok(())
}

// Adds the arcs that the lines of a section name, where its tile is in the grid.
fn add_section<G: ArcNames>(
    graph: &G,
    found: &mut Vec<ArcId>,
    text: &TileText,
) -> Result<(), AllocError>
    ensures { OnOk result (found.new.items ≡ found.old.items ++ section_places (G.graph graph.now) text.now) }
{
    match graph.tile_named(&text.tile) {
        Some(t) => add_lines(graph, found, t, text.arcs.as_slice()),
        None => Ok(()),
    }
}

// The arcs that the lines of sections name.
fn arcs_in<G: ArcNames>(
    alloc: Global,
    graph: &G,
    sections: &[TileText],
) -> Result<Vec<ArcId>, AllocError>
    ensures { IfOk result (λ v. v.items ≡ flat_map (section_places (G.graph graph.now)) sections.now) }
{
    let mut found = Vec::new(alloc);
    for text in sections {
        add_section(graph, &mut found, text)?;
    }
    Ok(found)
}

/// The arcs that the lines of a text name, section by section in the order of lines. Each line is looked up once; one whose
/// tile, mux or arc isn't there gives none.
pub fn line_arcs<G: ArcNames>(
    alloc: Global,
    graph: &G,
    config: &Config,
) -> Result<Vec<ArcId>, AllocError>
    ensures { IfOk result (λ v. v.items ≡ text_places (G.graph graph.now) config.now) }
{
    arcs_in(alloc, graph, config.tiles.as_slice())
}
