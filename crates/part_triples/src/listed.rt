//! All triples of a side file in one list.

ghost use Rattle.std.specs.Prelude.{◌≡◌, ◌++◌, map, IfOk, OnOk};
ghost use Rattle.circuit.specs.Triples.{all_triples};

use side_file::{Side, Triple};
use std::alloc::{AllocError, Global};

// Adds triples to those that are lent.
fn add<'a>(all: &mut Vec<&'a Triple>, triples: &'a [Triple]) -> Result<(), AllocError>
    ensures { OnOk result (map (λ t. t.now) all.new.items ≡ map (λ t. t.now) all.old.items ++ triples.now) }
{
    for triple in triples {
        all.push(triple)?;
    }
    Ok(())
}

/// The triples of slices, of inputs, of outputs and of clocks.
pub(crate) fn listed<'a>(alloc: Global, side: &'a Side) -> Result<Vec<&'a Triple>, AllocError>
    ensures { IfOk result (λ all. map (λ t. t.now) all.items ≡ all_triples side.now) }
{
    let mut all = Vec::new(alloc);
    add(&mut all, side.triples.as_slice())?;
    add(&mut all, side.inputs.as_slice())?;
    add(&mut all, side.outputs.as_slice())?;
    add(&mut all, side.clocks.as_slice())?;
    Ok(all)
}
