//! Muxes by the names of their sinks.

ghost use Rattle.fabric.specs.Graph.{Graph};
ghost use Rattle.fabric.specs.Image.{mux_named as mux_named_in};
ghost use Rattle.record_laws.specs.Records.{AreMuxesOf, place_named as place_named_in};
ghost use Rattle.std.specs.Prelude.{◌≡◌, ◌<◌};

use crate::TileDatabases;
use mux_rows::MuxRows;
use mux_search::mux_at;
use rr_ids::{MuxId, Name, TileId};

// The place of the first mux of a sink in the database of a tile.
#[tactic(auto, using(crate::proofs::Found::place_found, crate::proofs::Found::no_place))]
fn place_named<'a, D: TileDatabases<'a>>(device: &D, t: TileId, sink: &Name) -> Option<usize>
    ensures { result ≡ place_named_in (D.device device.now) t sink.now }
{
    match device.names(t) {
        Some(names) => names.mux(sink),
        None => None,
    }
}

/// The mux of a tile that drives the sink of a name; where the muxes are those of the graph of the device, `None` exactly where the
/// tile has none. Takes no memory, and time in proportion to the logarithm of the number of muxes of the tile's type.
#[tactic(auto, using(crate::proofs::Found::no_mux))]
pub fn mux_named<'a, D: TileDatabases<'a>>(
    device: &D,
    rows: &MuxRows,
    t: TileId,
    sink: &Name,
) -> Option<MuxId>
    requires { t < rows.now.tiles }
    ensures { (g : Graph) → AreMuxesOf (D.device device.now) g rows.now.muxes → result ≡ mux_named_in g t sink.now }
{
    match place_named(device, t, sink) {
        Some(place) => mux_at(rows, t, place),
        None => None,
    }
}
