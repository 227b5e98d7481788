//! Pads at sites.

ghost use Rattle.std.specs.Prelude.{◌≡◌, ◌<◌, IfOk, length, map};
ghost use Rattle.std.specs.Option.{option_copied, option_map_or};
ghost use Rattle.cell_parts.specs.CellViews.{role_of as role_view};
ghost use Rattle.cells.specs.Resolved.{pad_cell as pad_cell_of, pad_wire as pad_wire_of};
ghost use Rattle.cells.specs.Takes.{wire_number as wire_number_of};
ghost use Rattle.slice_model.specs.Grid.{AllPlaced, StandsInGrid};

use crate::placing::PlacedPad;
use crate::setting_bits::bits_of_settings;
use crate::wires::wire_number;
use cell_parts::{PadCell, Role};
use cell_profile::PadKind;
use cell_sites::{PadSite, SideNames};
use routing_graph::RoutingGraph;
use rr_ids::{Id, List, Name, WireId};
use side_file::Placed;
use std::alloc::{AllocError, Global};

// The wire that a pad of a role has, by name.
fn wire_name(role: Role, kind: &PadKind) -> Option<&Name>
    ensures { option_copied result ≡ pad_wire_of (role_view role) kind.now }
{
    match role {
        Role::Output => kind.out_wire.as_ref(),
        Role::Input => kind.in_wire.as_ref(),
        Role::Clock => kind.in_wire.as_ref(),
    }
}

// The number of the wire that a pad of a role has at a site; one past the last wire where it has none.
fn pad_wire<G: RoutingGraph>(graph: &G, role: Role, site: &PadSite<'_>) -> WireId
    requires at { StandsInGrid (G.graph graph.now) site.now }
    requires there { site.now.number < length (G.graph graph.now).grid.tiles }
    ensures { result ≡ option_map_or (wire_number_of (G.graph graph.now) (G.device graph.now).profile.rules site.now.tile) (pad_wire_of (role_view role) site.now.kind) (length (G.graph graph.now).wires) }
{
    match wire_name(role, site.kind) {
        Some(name) => wire_number(graph, site.number, name),
        None => WireId::from_u32(graph.wires()),
    }
}

// A placed pad at its site.
fn pad_cell<'a, G: RoutingGraph>(
    alloc: Global,
    graph: &G,
    names: &SideNames<'a>,
    placed: &'a Placed,
    site: &PadSite<'a>,
) -> Result<PadCell, AllocError>
    requires at { StandsInGrid (G.graph graph.now) site.now }
    requires there { site.now.number < length (G.graph graph.now).grid.tiles }
    ensures { IfOk result (λ cell. cell ≡ pad_cell_of (G.graph graph.now) (G.device graph.now).profile.rules names.now placed.now site.now) }
{
    let kind = site.kind;
    let role = names.role(&placed.name);
    let name = placed.name.copy()?;
    let bits = bits_of_settings(
        alloc,
        graph,
        site.number,
        site.tile,
        kind.settings.as_slice(),
    )?;
    Ok(PadCell {
        name,
        domain: placed.domain,
        role,
        wire: pad_wire(graph, role, site),
        bits,
    })
}

/// Placed pads at their sites, in their order.
#[tactic(auto, using(crate::proofs::Walking::map_more, crate::proofs::Walking::map_all))]
pub(crate) fn pad_cells<'a, G: RoutingGraph>(
    alloc: Global,
    graph: &G,
    names: &SideNames<'a>,
    pads: &[PlacedPad<'a>],
) -> Result<List<PadCell>, AllocError>
    requires { AllPlaced (G.graph graph.now) pads.now }
    ensures { IfOk result (λ cells. cells ≡ map (λ q. pad_cell_of (G.graph graph.now) (G.device graph.now).profile.rules names.now q.0 q.1) pads.now) }
{
    let mut cells = Vec::with_capacity(alloc, pads.len())?;
    for pad in pads {
        cells.push(pad_cell(alloc, graph, names, pad.placed, &pad.site)?)?;
    }
    Ok(List::from_vec(cells))
}
