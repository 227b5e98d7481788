//! Wires by name, on their own.

ghost use Rattle.std.specs.Prelude.{◌≡◌, ◌<◌, IfOk, Some, length, slice_get};
ghost use Rattle.fabric.specs.WireNames.{Ignored, Named};
ghost use Rattle.wire_names.specs.LentNames.{wire_name};
ghost use Rattle.route_graph.specs.Owned.{wire_of};

use crate::OwnedWire;
use device_wires::Wires;
use rr_ids::WireId;
use std::alloc::{AllocError, Global};
use wire_names::WireName;

// A wire by name, on its own.
fn owned_name(alloc: Global, name: &WireName<'_>) -> Result<OwnedWire, AllocError>
    requires { wire_name name.now ≡ Ignored → ⊥ }
    ensures { IfOk result (λ wire. wire_name name.now ≡ Named (wire_of wire)) }
{
    match *name {
        WireName::Local { row, col, base } => Ok(OwnedWire::Local {
            row,
            col,
            base: Vec::from_slice(alloc, base)?,
        }),
        WireName::Wide { base } => Ok(OwnedWire::Wide {
            base: Vec::from_slice(alloc, base)?,
        }),
        WireName::Ignored => unreachable!(),
    }
}

/// The wire of a number, on its own.
pub(crate) fn owned_wire(alloc: Global, wires: &Wires, w: WireId) -> Result<OwnedWire, AllocError>
    requires { w < length wires.now }
    ensures { IfOk result (λ wire. slice_get wires.now w ≡ Some (wire_of wire)) }
{
    let name = wires.name(w).unwrap();
    let wire = owned_name(alloc, &name)?;
    Ok(wire)
}
