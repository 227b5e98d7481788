//! Whether each wire is that of a pin.

ghost use Rattle.std.specs.Prelude.{◌≡◌, IfOk, false, replicate, slice_set, true};
ghost use Rattle.domain_map.specs.Labels.{marks_with};

use cell_parts::Pin;
use rr_ids::{Id, WireId};
use std::alloc::{AllocError, Global};

// No marks yet.
fn none(alloc: Global, count: usize) -> Result<Vec<bool>, AllocError>
    ensures { IfOk result (λ v. v.items ≡ replicate count false) }
{
    vec![in alloc; false; count]
}

// Marks a wire, where it has a place.
fn mark(marks: &mut [bool], wire: WireId)
    ensures { marks.new ≡ slice_set marks.old wire true }
{
    let place = wire.to_u32() as usize;
    if place < marks.len() {
        marks[place] = true;
    }
}

// Marks the wires of pins.
#[tactic(auto, using(crate::proofs::Marked::marks_more, crate::proofs::Marked::marks_all))]
fn mark_all(marks: &mut [bool], pins: &[Pin<'_>])
    ensures { marks.new ≡ marks_with marks.old pins.now }
{
    for pin in pins {
        mark(marks, pin.wire);
    }
}

/// For each wire with a number below a count whether it is that of a pin.
pub(crate) fn marks(alloc: Global, pins: &[Pin<'_>], count: usize) -> Result<Vec<bool>, AllocError>
    ensures { IfOk result (λ v. v.items ≡ marks_with (replicate count false) pins.now) }
{
    let mut marks = none(alloc, count)?;
    mark_all(&mut marks, pins);
    Ok(marks)
}
