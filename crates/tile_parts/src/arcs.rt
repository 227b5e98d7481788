//! The arcs of a mux.

ghost use Rattle.std.specs.Prelude.{◌≡◌, ◌<◌, ◌^◌, ◌++◌, OnOk, length, option_map, option_to_list};
ghost use Rattle.tile_parts.specs.Slots.{arcs_in};

use crate::slots::wire_of;
use arc_rows::ArcInfo;
use rr_ids::{MuxId, WireId};
use std::alloc::AllocError;
use tile_types::SlotId;

// Adds the arc at a place where its source has a wire.
fn add_arc(
    arcs: &mut Vec<ArcInfo>,
    mux: MuxId,
    sink: WireId,
    place: u32,
    source: Option<WireId>,
) -> Result<(), AllocError>
    ensures { OnOk result (arcs.new.items ≡ arcs.old.items ++ option_to_list (option_map (λ s. record { mux = mux; place = place; source = s; sink = sink }) source)) }
{
    if let Some(source) = source {
        arcs.push(ArcInfo {
            mux,
            place,
            source,
            sink,
        })?;
    }
    Ok(())
}

/// Adds the arcs of a mux, in file order, without those whose source has no wire.
pub fn add_arcs(
    arcs: &mut Vec<ArcInfo>,
    mux: MuxId,
    sink: WireId,
    row: &[Option<WireId>],
    sources: &[Option<SlotId>],
) -> Result<(), AllocError>
    requires { length sources.now < 2 ^ 32 }
    ensures { OnOk result (arcs.new.items ≡ arcs.old.items ++ arcs_in row.now mux sink sources.now) }
{
    for (place, slot) in sources.iter().enumerate() {
        add_arc(arcs, mux, sink, place as u32, wire_of(row, *slot))?;
    }
    Ok(())
}
