//! Registers at sites.

ghost use Rattle.std.specs.Prelude.{◌≡◌, ◌<◌, Some, IfOk, false, length, map, option_map, slice_get};
ghost use Rattle.std.specs.Option.{option_map_or};
ghost use Rattle.cell_parts.specs.CellViews.{input_of as input_view};
ghost use Rattle.cell_profile.specs.Takes.{take_of};
ghost use Rattle.cells.specs.Resolved.{input_at as input_at_of, register_cell as register_cell_of};
ghost use Rattle.cells.specs.Sites.{Site};
ghost use Rattle.cells.specs.Takes.{input_of, is_one as is_one_of, take_at as take_at_of, wire_number as wire_number_of};
ghost use Rattle.cram_image.specs.Image.{bits};
ghost use Rattle.named_graph.specs.Standing.{StandsInTiles};
ghost use Rattle.slice_model.specs.Grid.{StandsInGrid};

use crate::wires::wire_number;
use cell_parts::{Input, RegisterCell};
use cell_profile::{Choice, RegisterKind, Take};
use cell_readings::take_at;
use cell_sites::SliceSite;
use cram_image::Image;
use routing_graph::RoutingGraph;
use rr_ids::List;
use std::alloc::{AllocError, Global};

// What a register takes by a choice.
fn input_at<G: RoutingGraph>(
    graph: &G,
    image: &Image,
    site: &SliceSite<'_>,
    choice: &Choice,
) -> Input
    requires stands { StandsInTiles (G.graph graph.now) }
    requires at { StandsInGrid (G.graph graph.now) site.now }
    requires there { site.now.number < length (G.graph graph.now).grid.tiles }
    ensures { input_view result ≡ input_at_of (G.graph graph.now) (G.device graph.now).profile.rules (bits image.now) site.now choice.now }
{
    match take_at(graph, image, site.number, choice) {
        Some(Take::Wire(name)) => Input::Wire(wire_number(graph, site.number, name)),
        Some(Take::NotWire(name)) => Input::NotWire(wire_number(graph, site.number, name)),
        Some(Take::One) => Input::One,
        _ => Input::Zero,
    }
}

// Whether a choice takes a constant 1.
fn is_one<G: RoutingGraph>(graph: &G, image: &Image, site: &SliceSite<'_>, choice: &Choice) -> bool
    requires stands { StandsInTiles (G.graph graph.now) }
    requires there { site.now.number < length (G.graph graph.now).grid.tiles }
    ensures { result ≡ option_map_or is_one_of (take_at_of (G.graph graph.now) (bits image.now) site.now.number choice.now) false }
{
    matches!(take_at(graph, image, site.number, choice), Some(Take::One))
}

// A register of a kind at a site.
fn register_cell<G: RoutingGraph>(
    graph: &G,
    image: &Image,
    site: &SliceSite<'_>,
    register: &RegisterKind,
) -> RegisterCell
    requires stands { StandsInTiles (G.graph graph.now) }
    requires at { StandsInGrid (G.graph graph.now) site.now }
    requires there { site.now.number < length (G.graph graph.now).grid.tiles }
    ensures { result ≡ register_cell_of (G.graph graph.now) (G.device graph.now).profile.rules (bits image.now) site.now register.now }
{
    RegisterCell {
        input: input_at(graph, image, site, &register.input),
        enable: input_at(graph, image, site, &register.enable),
        reset: input_at(graph, image, site, &register.reset),
        set: is_one(graph, image, site, &register.set),
        clock: input_at(graph, image, site, &register.clock),
        out: wire_number(graph, site.number, &register.out),
    }
}

/// The registers of kinds at a site, in their order.
#[tactic(auto, using(crate::proofs::Walking::map_more, crate::proofs::Walking::map_all))]
pub(crate) fn register_cells<G: RoutingGraph>(
    alloc: Global,
    graph: &G,
    image: &Image,
    site: &SliceSite<'_>,
    registers: &[RegisterKind],
) -> Result<List<RegisterCell>, AllocError>
    requires stands { StandsInTiles (G.graph graph.now) }
    requires at { StandsInGrid (G.graph graph.now) site.now }
    requires there { site.now.number < length (G.graph graph.now).grid.tiles }
    ensures { IfOk result (λ cells. cells ≡ map (register_cell_of (G.graph graph.now) (G.device graph.now).profile.rules (bits image.now) site.now) registers.now) }
{
    let mut cells = Vec::with_capacity(alloc, registers.len())?;
    for register in registers {
        cells.push(register_cell(graph, image, site, register))?;
    }
    Ok(List::from_vec(cells))
}
