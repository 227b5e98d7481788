//! The muxes of tile types by slots.

ghost use Rattle.std.specs.Prelude.{◌≡◌, IfOk, map, option_map};
ghost use Rattle.type_shapes.specs.Shapes.{shapes_at, type_shapes};

use rr_ids::{Id, List, TileId};
use std::alloc::{AllocError, Global};
use std::marker::Model;
use tile_parts::{MuxSlots, slots_of_muxes};
use tile_types::{TileType, TileTypes};

/// The muxes of each type of a device's tiles by slots. Contracts see a list for each type.
#[derive(Drop)]
pub struct Shapes {
    types: Vec<List<MuxSlots>>,
}

impl Model for Shapes {
    ghost use Rattle.std.specs.Prelude.{List as Seq};
    ghost use Rattle.tile_parts.specs.Slots.{MuxSlots as Record};

    ghost Value = { Seq (Seq Record) };

    ghost view = { λ s. s.types.items };
}

// The muxes of a type by slots.
fn shape_of(alloc: Global, kind: &TileType<'_>) -> Result<List<MuxSlots>, AllocError>
    ensures { IfOk result (λ shape. shape ≡ type_shapes kind.now) }
{
    match kind.database() {
        Some(db) => Ok(List::from_vec(slots_of_muxes(alloc, kind, db.muxes.as_slice())?)),
        None => Ok(List::new(alloc)),
    }
}

/// The muxes of each type by slots.
pub fn shapes_of(alloc: Global, types: &[TileType<'_>]) -> Result<Shapes, AllocError>
    ensures { IfOk result (λ shapes. shapes ≡ map type_shapes types.now) }
{
    let mut shapes = Vec::with_capacity(alloc, types.len())?;
    for kind in types {
        shapes.push(shape_of(alloc, kind)?)?;
    }
    Ok(Shapes { types: shapes })
}

impl Shapes {
    /// The muxes of the type of a tile; `None` exactly where there is no such tile or type.
    pub fn of_tile(&self, types: &TileTypes<'_>, tile: TileId) -> Option<&[MuxSlots]>
        ensures { option_map (λ shape. shape.now) result ≡ shapes_at self.now types.now tile }
    {
        let number = *types.tiles().get(tile.to_u32() as usize)?;
        let shape = self.types.get(number.to_u32() as usize)?;
        Some(shape.as_slice())
    }
}
