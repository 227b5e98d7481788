//! Whether kinds of slices have equal shape.

ghost use Rattle.std.specs.Prelude.{◌≡◌, ◌<◌, length};
ghost use Rattle.cells.specs.Shapes.{equal_shape as equal_shape_of};
ghost use Rattle.named_graph.specs.Standing.{settings_at};

use cell_profile::SliceKind;
use named_graph::NamedGraph;
use rr_ids::TileId;
use setting_values::same_forms;

/// Whether two kinds of slices have equal shape in two tiles, so that the settings of the one can be written at the other: equal
/// `shape` texts, equally many settings, and at the same places settings of the same form. Takes no memory.
pub fn equal_shape<G: NamedGraph>(
    graph: &G,
    a: &SliceKind,
    a_tile: TileId,
    b: &SliceKind,
    b_tile: TileId,
) -> bool
    requires a_there { a_tile < length (G.graph graph.now).grid.tiles }
    requires b_there { b_tile < length (G.graph graph.now).grid.tiles }
    ensures { result ≡ equal_shape_of (settings_at (G.graph graph.now) a_tile) a.now (settings_at (G.graph graph.now) b_tile) b.now }
{
    a.shape.bytes() == b.shape.bytes()
        && same_forms(
            graph,
            a.settings.as_slice(),
            a_tile,
            b.settings.as_slice(),
            b_tile,
        )
}
