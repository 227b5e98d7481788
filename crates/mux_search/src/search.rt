//! Muxes by their places.

ghost use Rattle.fabric.specs.Device.{Device};
ghost use Rattle.fabric.specs.Graph.{Graph};
ghost use Rattle.fabric.specs.Image.{mux_named};
ghost use Rattle.record_laws.specs.Records.{AreMuxesOf, FoundAt, PlacesRise, place_named, place_of};
ghost use Rattle.std.specs.Prelude.{◌≡◌, ◌<◌, ℕ, List, Some};

use mux_rows::MuxRows;
use rr_ids::{Id, MuxId, TileId};

// The place of the mux of a number in its database; 0 where there is no such mux.
fn place_at(rows: &MuxRows, m: MuxId) -> usize
    ensures { result ≡ place_of rows.now.muxes m }
{
    match rows.muxes().get(m.to_u32() as usize) {
        Some(mux) => mux.place as usize,
        None => 0,
    }
}

// The mux at a place, of muxes whose places rise.
fn with_place(rows: &MuxRows, row: &[MuxId], place: usize) -> Option<MuxId>
    ensures { PlacesRise rows.now.muxes row.now → FoundAt rows.now.muxes row.now (Some place) result }
{
    let mut low = 0;
    let mut high = row.len();
    'search: while low < high {
        let middle = low + (high - low) / 2;
        let m = row[middle];
        let at = place_at(rows, m);
        if at == place {
            return Some(m);
        }
        if at < place {
            low = middle + 1;
        } else {
            high = middle;
        }
    }
    None
}

/// The mux of a sink's name in a tile, by the place of the first record of the name in the tile's database, where the muxes are
/// those of the graph of a device; of another place nothing is said. Takes no memory, and time in proportion to the logarithm
/// of the number of muxes of the tile.
pub fn mux_at(rows: &MuxRows, t: TileId, place: usize) -> Option<MuxId>
    requires { t < rows.now.tiles }
    ensures { (device : Device) (g : Graph) → AreMuxesOf device g rows.now.muxes → (sink : List ℕ) → Some place ≡ place_named device t sink → result ≡ mux_named g t sink }
{
    with_place(rows, rows.of_tile(t), place)
}
