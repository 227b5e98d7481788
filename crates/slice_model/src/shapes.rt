//! Triples of slices whose sites are of unequal shape.

ghost use Rattle.std.specs.Prelude.{◌≡◌, ◌<◌, IfSome, length};
ghost use Rattle.std.specs.Option.{ForSome};
ghost use Rattle.words.specs.Firsts.{unless_fault};
ghost use Rattle.words.specs.OrMemory.{OrMemory};
ghost use Rattle.cell_readings.specs.Errors.{fault_of};
ghost use Rattle.cell_readings.specs.First.{first_of};
ghost use Rattle.slice_model.specs.Alike.{triple_alike};
ghost use Rattle.cells.specs.Faults.{shape_fault as shape_fault_of, shaped_alike as shaped_alike_of, site_of_slice};

use cell_readings::{CellError, equal_shape};
use cell_sites::{Kinds, SideNames, SliceSite};
use named_graph::NamedGraph;
use rr_ids::Name;
use side_file::{Side, Triple};

// The site of the slice of a name.
fn site_of<'a, G: NamedGraph>(
    graph: &'a G,
    kinds: &Kinds<'a>,
    names: &SideNames<'a>,
    name: &'a Name,
) -> Option<SliceSite<'a>>
    ensures site { result ≡ site_of_slice (G.graph graph.now) kinds.now names.now name.now }
    ensures there { IfSome result (λ s. s.number < length (G.graph graph.now).grid.tiles) }
{
    let placed = names.slice(name)?;
    kinds.slice_site(graph, placed)
}

// Whether two sites have equal shape.
fn shaped_alike<G: NamedGraph>(
    graph: &G,
    a: &Option<SliceSite<'_>>,
    b: &Option<SliceSite<'_>>,
) -> bool
    requires a_there { ForSome a.now (λ s. s.number < length (G.graph graph.now).grid.tiles) }
    requires b_there { ForSome b.now (λ s. s.number < length (G.graph graph.now).grid.tiles) }
    ensures { result ≡ shaped_alike_of (G.graph graph.now) a.now b.now }
{
    match (a, b) {
        (Some(a), Some(b)) => equal_shape(graph, a.kind, a.number, b.kind, b.number),
        _ => false,
    }
}

// Whether the slices of a triple stand at sites of equal shape.
fn is_shaped_alike<'a, G: NamedGraph>(
    graph: &'a G,
    kinds: &Kinds<'a>,
    names: &SideNames<'a>,
    triple: &'a Triple,
) -> bool
    ensures { result ≡ triple_alike (G.graph graph.now) kinds.now names.now triple.now }
{
    let first = site_of(graph, kinds, names, &triple.first);
    let second = site_of(graph, kinds, names, &triple.second);
    let third = site_of(graph, kinds, names, &triple.third);
    shaped_alike(graph, &first, &second) && shaped_alike(graph, &first, &third)
}

// The fault of a triple whose slices stand at sites of unequal shape.
fn shape_fault<'a, G: NamedGraph>(
    graph: &'a G,
    kinds: &Kinds<'a>,
    names: &SideNames<'a>,
    triple: &'a Triple,
) -> Result<(), CellError>
    ensures { OrMemory (λ done. done) fault_of result (unless_fault (shape_fault_of (G.graph graph.now) kinds.now names.now triple.now) tt) }
{
    if is_shaped_alike(graph, kinds, names, triple) {
        return Ok(());
    }
    Err(CellError::ShapeDiffers(triple.first.copy()?))
}

// The first of triples whose slices stand at sites of unequal shape.
fn first_of_triples<'a, G: NamedGraph>(
    graph: &'a G,
    kinds: &Kinds<'a>,
    names: &SideNames<'a>,
    triples: &'a [Triple],
) -> Result<(), CellError>
    ensures { OrMemory (λ done. done) fault_of result (unless_fault (first_of (shape_fault_of (G.graph graph.now) kinds.now names.now) triples.now) tt) }
{
    for triple in triples {
        shape_fault(graph, kinds, names, triple)?;
    }
    Ok(())
}

/// The first of the triples of slices of a side file whose slices stand at sites of unequal shape.
pub(crate) fn first_unlike<'a, G: NamedGraph>(
    graph: &'a G,
    kinds: &Kinds<'a>,
    names: &SideNames<'a>,
    side: &'a Side,
) -> Result<(), CellError>
    ensures { OrMemory (λ done. done) fault_of result (unless_fault (first_of (shape_fault_of (G.graph graph.now) kinds.now names.now) side.now.triples) tt) }
{
    first_of_triples(graph, kinds, names, side.triples.as_slice())
}
