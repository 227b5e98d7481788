//! The output pads of triples.

ghost use Rattle.std.specs.Prelude.{◌≡◌, IfOk, length};
ghost use Rattle.words.specs.Members.{In};
ghost use Rattle.circuit.specs.Circuits.{Circuit};
ghost use Rattle.circuit.specs.Parts.{Pad};
ghost use Rattle.copy_checks.specs.Given.{IsOf};
ghost use Rattle.copy_checks.specs.Pads.{HoldsPads};
ghost use Rattle.copy_checks.specs.Unlike.{IsAnswer, WithOutputs, WithPart};

use crate::design::Design;
use crate::pads::{PadPins, output_pins};
use crate::unlike::{Unlike, lesser, unlike_of};
use cell_parts::PartKind;
use copy_rules::outputs_differ;
use side_file::Triple;
use std::alloc::{AllocError, Global};

// Whether the output pads of a triple are fed otherwise.
fn output_unlike<'a>(
    alloc: Global,
    design: &Design<'_, '_>,
    pads: &PadPins<'_>,
    triple: &'a Triple,
) -> Result<Option<Unlike<'a>>, AllocError>
    ensures { IfOk result (λ r. (c : Circuit) → IsOf c design.now → HoldsPads design.now.parts.now pads.now → In c.side.outputs triple.now → IsAnswer c triple.now Pad r) }
{
    let pins = output_pins(alloc, pads, triple)?;
    if !outputs_differ(design.parts, design.feeds, design.triples, &pins) {
        return Ok(None);
    }
    let what = Vec::from_slice(alloc, b"out")?;
    Ok(Some(unlike_of(triple, PartKind::Pad, what)))
}

// The least part so far, where the output pads of a triple are looked at too.
fn with_output<'a>(
    alloc: Global,
    design: &Design<'_, '_>,
    pads: &PadPins<'_>,
    triple: &'a Triple,
    least: Option<Unlike<'a>>,
) -> Result<Option<Unlike<'a>>, AllocError>
    ensures { IfOk result (λ r. (c : Circuit) → IsOf c design.now → HoldsPads design.now.parts.now pads.now → In c.side.outputs triple.now → WithPart c triple.now Pad least.entry r) }
{
    match output_unlike(alloc, design, pads, triple)? {
        None => Ok(least),
        Some(next) => Ok(Some(lesser(least, next))),
    }
}

/// The least part so far, where the triples of output pads are looked at too.
pub(crate) fn with_outputs<'a>(
    alloc: Global,
    design: &Design<'_, '_>,
    pads: &PadPins<'_>,
    triples: &'a [Triple],
    least: Option<Unlike<'a>>,
) -> Result<Option<Unlike<'a>>, AllocError>
    ensures { IfOk result (λ r. (c : Circuit) → IsOf c design.now → HoldsPads design.now.parts.now pads.now → c.side.outputs ≡ triples.now → WithOutputs c triples.now (length triples.now) least.entry r) }
{
    let mut found = least;
    for triple in triples {
        found = with_output(alloc, design, pads, triple, found)?;
    }
    Ok(found)
}
