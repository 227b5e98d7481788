//! What each pin is of.

ghost use Rattle.std.specs.Prelude.{◌≡◌, ◌+◌, ◌<◌, ◌^◌, ◌++◌, IfOk, OnOk, [], length, map, replicate};
ghost use Rattle.circuit.specs.Parts.{output_pads, sources as sources_of};
ghost use Rattle.circuit.specs.Pins.{pad_pin};
ghost use Rattle.pin_rules.specs.Owners.{owners_from, owners_of, pad_owners};

use cell_parts::Pin;
use circuit_parts::{Parts, SourceId};
use rr_ids::Id;
use std::alloc::{AllocError, Global};

/// What a pin is of: a part with an output, or an output pad, by its number among those.
#[derive(Clone, Copy, PartialEq, Eq)]
pub enum PinOwner {
    Part(SourceId),
    Pad(u32),
}

// Adds a part once for each of its pins.
fn add_part(owners: &mut Vec<PinOwner>, part: SourceId, count: usize) -> Result<(), AllocError>
    ensures { OnOk result (owners.new.items ≡ owners.old.items ++ replicate count (PinOwner.Part part)) }
{
    for _place in 0..count {
        owners.push(PinOwner::Part(part))?;
    }
    Ok(())
}

// Adds the parts.
#[tactic(auto, using(crate::proofs::Owning::parts_more, crate::proofs::Owning::parts_all))]
fn add_parts(owners: &mut Vec<PinOwner>, parts: &Parts<'_>) -> Result<(), AllocError>
    ensures { OnOk result (owners.new.items ≡ owners.old.items ++ owners_from 0 (sources_of parts.now)) }
{
    for place in 0..parts.sources().len() {
        let part = SourceId::from_u32(place as u32);
        add_part(owners, part, parts.pins_of(part).len())?;
    }
    Ok(())
}

// Adds the output pads, of which each has one pin.
#[tactic(auto, using(circuit_parts::proofs::Gathered::numbered_more, circuit_parts::proofs::Gathered::numbered_all))]
fn add_pads(owners: &mut Vec<PinOwner>, pins: &[Pin<'_>]) -> Result<(), AllocError>
    requires { length pins.now < 2 ^ 32 }
    ensures { OnOk result (owners.new.items ≡ owners.old.items ++ pad_owners pins.now) }
{
    for (number, _pin) in pins.iter().enumerate() {
        owners.push(PinOwner::Pad(number as u32))?;
    }
    Ok(())
}

/// What each pin is of, in order of pins. Takes time in proportion to them.
#[tactic(auto, using(crate::proofs::Owning::pads_few))]
pub fn pin_owners(alloc: Global, parts: &Parts<'_>) -> Result<Vec<PinOwner>, AllocError>
    ensures { IfOk result (λ v. v.items ≡ owners_of parts.now) }
{
    let mut owners = Vec::with_capacity(alloc, parts.pins().len())?;
    add_parts(&mut owners, parts)?;
    add_pads(&mut owners, parts.output_pins())?;
    Ok(owners)
}
