//! The sites of placed cells, or the first cell that has none.

ghost use Rattle.std.specs.Prelude.{◌≡◌, Some, IfOk, map};
ghost use Rattle.words.specs.Firsts.{unless_fault};
ghost use Rattle.words.specs.OrMemory.{OrMemory};
ghost use Rattle.cell_readings.specs.Errors.{fault_of};
ghost use Rattle.cell_readings.specs.First.{first_of};
ghost use Rattle.cells.specs.Faults.{UnknownSite, site_fault};
ghost use Rattle.cells.specs.Sites.{pad_site, slice_site};
ghost use Rattle.slice_model.specs.Standing.{standing};

use crate::placing::{PlacedPad, PlacedSlice};
use cell_readings::CellError;
use cell_sites::Kinds;
use named_graph::NamedGraph;
use side_file::Placed;
use std::alloc::{AllocError, Global};

// The fault of a placed cell that has no site.
fn unknown_site(placed: &Placed) -> Result<CellError, AllocError>
    ensures { IfOk result (λ e. fault_of e ≡ Some (UnknownSite placed.now.name)) }
{
    Ok(CellError::UnknownSite(placed.name.copy()?))
}

/// Placed slices at their sites, in their order; or the first that has none.
pub(crate) fn slices_at_sites<'a, G: NamedGraph>(
    alloc: Global,
    graph: &'a G,
    kinds: &Kinds<'a>,
    cells: &[&'a Placed],
) -> Result<Vec<PlacedSlice<'a>>, CellError>
    ensures { OrMemory (λ found. found.items) fault_of result
        (unless_fault (first_of (λ p. site_fault p.now.name (slice_site (G.graph graph.now) kinds.now p.now)) cells.now)
        (standing (slice_site (G.graph graph.now) kinds.now) (map (λ p. p.now) cells.now))) }
{
    let mut found = Vec::with_capacity(alloc, cells.len())?;
    for cell in cells {
        let placed = *cell;
        let Some(site) = kinds.slice_site(graph, placed) else {
            return Err(unknown_site(placed)?);
        };
        found.push(PlacedSlice { placed, site })?;
    }
    Ok(found)
}

/// Placed pads at their sites, in their order; or the first that has none.
pub(crate) fn pads_at_sites<'a, G: NamedGraph>(
    alloc: Global,
    graph: &'a G,
    kinds: &Kinds<'a>,
    cells: &[&'a Placed],
) -> Result<Vec<PlacedPad<'a>>, CellError>
    ensures { OrMemory (λ found. found.items) fault_of result
        (unless_fault (first_of (λ p. site_fault p.now.name (pad_site (G.graph graph.now) kinds.now p.now)) cells.now)
        (standing (pad_site (G.graph graph.now) kinds.now) (map (λ p. p.now) cells.now))) }
{
    let mut found = Vec::with_capacity(alloc, cells.len())?;
    for cell in cells {
        let placed = *cell;
        let Some(site) = kinds.pad_site(graph, placed) else {
            return Err(unknown_site(placed)?);
        };
        found.push(PlacedPad { placed, site })?;
    }
    Ok(found)
}
