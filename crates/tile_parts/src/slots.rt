//! Muxes by slots.

ghost use Rattle.std.specs.Prelude.{◌≡◌, IfOk, map};
ghost use Rattle.name_numbers.specs.Numbers.{number_of};
ghost use Rattle.tile_parts.specs.Slots.{mux_slots, wire_at};

use bits_db::{Arc, Mux};
use rr_ids::{Id, WireId};
use std::alloc::{AllocError, Global};
use std::marker::Model;
use tile_types::{SlotId, TileType};

/// A mux of a tile type: the slot of its sink and those of its sources, in order; `None` for names that don't count.
#[derive(Drop)]
pub struct MuxSlots {
    pub sink: Option<SlotId>,
    pub sources: Vec<Option<SlotId>>,
}

impl Model for MuxSlots {
    ghost use Rattle.tile_parts.specs.Slots.{MuxSlots as Record};

    ghost Value = { Record };

    ghost view = { λ m. record { sink = m.sink; sources = m.sources.items } };
}

// The slots of the sources of arcs.
fn source_slots(
    alloc: Global,
    kind: &TileType<'_>,
    arcs: &[Arc],
) -> Result<Vec<Option<SlotId>>, AllocError>
    ensures { IfOk result (λ slots. slots.items ≡ map (λ a. number_of kind.now.names a.source) arcs.now) }
{
    let mut slots = Vec::with_capacity(alloc, arcs.len())?;
    for arc in arcs {
        slots.push(kind.slot(&arc.source))?;
    }
    Ok(slots)
}

// A mux by slots.
fn slots_of_mux(alloc: Global, kind: &TileType<'_>, mux: &Mux) -> Result<MuxSlots, AllocError>
    ensures { IfOk result (λ slots. slots ≡ mux_slots kind.now.names mux.now) }
{
    let sources = source_slots(alloc, kind, mux.arcs.as_slice())?;
    Ok(MuxSlots {
        sink: kind.slot(&mux.sink),
        sources,
    })
}

/// The muxes of a type by slots, in file order. Each name is looked up once.
pub fn slots_of_muxes(
    alloc: Global,
    kind: &TileType<'_>,
    muxes: &[Mux],
) -> Result<Vec<MuxSlots>, AllocError>
    ensures { IfOk result (λ slots. slots.items ≡ map (mux_slots kind.now.names) muxes.now) }
{
    let mut slots = Vec::with_capacity(alloc, muxes.len())?;
    for mux in muxes {
        slots.push(slots_of_mux(alloc, kind, mux)?)?;
    }
    Ok(slots)
}

/// The wire of a slot in the row of a tile; `None` where the slot has none or isn't there.
pub fn wire_of(row: &[Option<WireId>], slot: Option<SlotId>) -> Option<WireId>
    ensures { result ≡ wire_at row.now slot }
{
    *row.get(slot?.to_u32() as usize)?
}
