//! Tables at sites.

ghost use Rattle.std.specs.Prelude.{◌≡◌, ◌<◌, IfOk, length, map};
ghost use Rattle.cells.specs.Resolved.{table_cell as table_cell_of};
ghost use Rattle.cells.specs.Takes.{wire_number as wire_number_of};
ghost use Rattle.cram_image.specs.Image.{bits};
ghost use Rattle.slice_model.specs.Grid.{HasSmallWord, HaveSmallWords, StandsInGrid, table_word};

use crate::wires::{wire_number, wire_numbers};
use cell_parts::TableCell;
use cell_profile::TableKind;
use cell_sites::SliceSite;
use cram_image::Image;
use routing_graph::RoutingGraph;
use rr_ids::{List, Name, WireId};
use setting_values::word_number;
use std::alloc::{AllocError, Global};

// The word of a table at a site; 0 where there is none.
#[tactic(auto, using(crate::proofs::Settings::small_found, crate::proofs::Settings::word_found, crate::proofs::Settings::word_missing))]
fn word_at<G: RoutingGraph>(graph: &G, image: &Image, site: &SliceSite<'_>, name: &Name) -> u16
    requires at { StandsInGrid (G.graph graph.now) site.now }
    requires there { site.now.number < length (G.graph graph.now).grid.tiles }
    requires small { HasSmallWord (G.graph graph.now) (bits image.now) site.now.number name.now }
    ensures { result ≡ table_word (G.graph graph.now) (bits image.now) site.now.number name.now }
{
    match graph.word_named(site.number, name) {
        Some(word) => word_number(image, site.tile, word),
        None => 0,
    }
}

// The wires of pins at a site.
fn pins_at<G: RoutingGraph>(
    alloc: Global,
    graph: &G,
    site: &SliceSite<'_>,
    names: &[Name],
) -> Result<List<WireId>, AllocError>
    requires at { StandsInGrid (G.graph graph.now) site.now }
    requires there { site.now.number < length (G.graph graph.now).grid.tiles }
    ensures { IfOk result (λ wires. wires ≡ map (wire_number_of (G.graph graph.now) (G.device graph.now).profile.rules site.now.tile) names.now) }
{
    wire_numbers(alloc, graph, site.number, names)
}

// A table of a kind at a site.
fn table_cell<G: RoutingGraph>(
    alloc: Global,
    graph: &G,
    image: &Image,
    site: &SliceSite<'_>,
    table: &TableKind,
) -> Result<TableCell, AllocError>
    requires at { StandsInGrid (G.graph graph.now) site.now }
    requires there { site.now.number < length (G.graph graph.now).grid.tiles }
    requires small { HasSmallWord (G.graph graph.now) (bits image.now) site.now.number table.now.word }
    ensures { IfOk result (λ cell. cell ≡ table_cell_of (G.graph graph.now) (G.device graph.now).profile.rules (bits image.now) site.now table.now) }
{
    Ok(TableCell {
        word: word_at(graph, image, site, &table.word),
        pins: pins_at(alloc, graph, site, table.pins.as_slice())?,
        out: wire_number(graph, site.number, &table.out),
    })
}

/// The tables of kinds at a site, in their order.
#[tactic(auto, using(crate::proofs::Walking::map_more, crate::proofs::Walking::map_all))]
pub(crate) fn table_cells<G: RoutingGraph>(
    alloc: Global,
    graph: &G,
    image: &Image,
    site: &SliceSite<'_>,
    tables: &[TableKind],
) -> Result<List<TableCell>, AllocError>
    requires at { StandsInGrid (G.graph graph.now) site.now }
    requires there { site.now.number < length (G.graph graph.now).grid.tiles }
    requires small { HaveSmallWords (G.graph graph.now) (bits image.now) site.now.number tables.now }
    ensures { IfOk result (λ cells. cells ≡ map (table_cell_of (G.graph graph.now) (G.device graph.now).profile.rules (bits image.now) site.now) tables.now) }
{
    let mut cells = Vec::with_capacity(alloc, tables.len())?;
    for table in tables {
        cells.push(table_cell(alloc, graph, image, site, table)?)?;
    }
    Ok(List::from_vec(cells))
}
