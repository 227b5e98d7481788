//! The pins of output pads by name.

ghost use Rattle.std.specs.Prelude.{◌≡◌, ◌+◌, ◌≤◌, ℕ, IfOk, List, OnOk, Some, slice_get};
ghost use Rattle.circuit.specs.Pins.{Pin as PinRecord};
ghost use Rattle.part_triples.specs.Places.{place_in};
ghost use Rattle.copy_checks.specs.Listed.{AreThere};
ghost use Rattle.copy_checks.specs.Pads.{HoldsPads, HoldsPins};

use crate::listed::listed;
use cell_parts::Pin;
use circuit_parts::{Parts, PinId, SourceId};
use rr_ids::{Id, Name};
use side_file::Triple;
use std::alloc::{AllocError, Global};
use std::collections::BTreeMap;

/// The pin of each output pad by its name.
pub(crate) type PadPins<'a> = BTreeMap<&'a [u8], u32>;

// Adds the pin with a number behind those before it.
fn add_pin<'a>(pads: &mut PadPins<'a>, pin: &Pin<'a>, place: u32) -> Result<(), AllocError>
    ensures { OnOk result ((all : List PinRecord) (from : ℕ) → slice_get all place ≡ Some pin.now → from ≤ place → HoldsPins all from place pads.old → HoldsPins all from (place + 1) pads.new) }
{
    pads.insert(pin.cell.bytes(), place)?;
    Ok(())
}

/// The pins of output pads; takes time n log n.
pub(crate) fn pad_pins<'a>(alloc: Global, parts: &Parts<'a>) -> Result<PadPins<'a>, AllocError>
    ensures { IfOk result (λ pads. HoldsPads parts.now pads) }
{
    let mut pads = PadPins::new(alloc);
    let all = parts.pins();
    let count = parts.sources().len() as u32;
    for place in parts.first_pin(SourceId::from_u32(count))..all.len() {
        add_pin(&mut pads, &all[place], place as u32)?;
    }
    Ok(pads)
}

// The pin of the output pad with a name.
fn pin_of(pads: &PadPins<'_>, name: &Name) -> Option<PinId>
    ensures { result ≡ place_in pads.now name.now }
{
    match pads.get(name.bytes()) {
        Some(place) => Some(PinId::from_u32(*place)),
        None => None,
    }
}

/// The pins of the output pads of a triple.
pub(crate) fn output_pins(
    alloc: Global,
    pads: &PadPins<'_>,
    triple: &Triple,
) -> Result<Vec<PinId>, AllocError>
    ensures { IfOk result (λ list. AreThere (place_in pads.now triple.now.first) (place_in pads.now triple.now.second) (place_in pads.now triple.now.third) list.items) }
{
    let first = pin_of(pads, &triple.first);
    let second = pin_of(pads, &triple.second);
    let third = pin_of(pads, &triple.third);
    listed(alloc, first, second, third)
}
