//! The least part whose copies differ.

ghost use Rattle.std.specs.Prelude.{◌≡◌, IfOk};
ghost use Rattle.circuit.specs.Circuits.{Circuit};
ghost use Rattle.part_copies.specs.Numbered.{AreNumberedOnce};
ghost use Rattle.table_masks.specs.Least.{Shows};
ghost use Rattle.copy_checks.specs.Given.{IsOf};
ghost use Rattle.copy_checks.specs.Unlike.{TellsUnlike};

use crate::Unlike;
use crate::copies::with_triples;
use crate::design::Design;
use crate::outputs::with_outputs;
use crate::pads::pad_pins;
use circuit_parts::{Parts, SourceId};
use part_copies::PartNumbers;
use part_triples::PartTriples;
use side_file::Side;
use std::alloc::{AllocError, Global};

// The least part of a design whose copies differ.
fn least_unlike<'a>(
    alloc: Global,
    design: &Design<'_, '_>,
    side: &'a Side,
) -> Result<Option<Unlike<'a>>, AllocError>
    ensures { IfOk result (λ r. (c : Circuit) → IsOf c design.now → c.side ≡ side.now → TellsUnlike c r) }
{
    let pads = pad_pins(alloc, design.parts)?;
    let found = with_triples(alloc, design, side.triples.as_slice())?;
    with_outputs(alloc, design, &pads, side.outputs.as_slice(), found)
}

/// The least part, by the order of parts, whose copies differ, and in what; `None` exactly where there is none. `feeds` has the part
/// that feeds each pin, and `read` whether each part feeds one.
pub fn copies_unlike<'a>(
    alloc: Global,
    parts: &Parts<'_>,
    feeds: &[Option<SourceId>],
    triples: &PartTriples,
    read: &[bool],
    side: &'a Side,
) -> Result<Option<Unlike<'a>>, AllocError>
    ensures { IfOk result (λ r. (c : Circuit) → Shows c parts.now feeds.now triples.now read.now → c.side ≡ side.now → AreNumberedOnce c.cells → TellsUnlike c r) }
{
    let numbers = PartNumbers::new(alloc, parts)?;
    let design = Design {
        parts,
        feeds,
        triples,
        read,
        side,
        numbers: &numbers,
    };
    least_unlike(alloc, &design, side)
}
