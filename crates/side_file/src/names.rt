//! The names that the parts of a side file have, lent in order.

ghost use Rattle.std.specs.Prelude.{◌≡◌, ◌++◌, map, IfOk, OnOk};
ghost use Rattle.side_form.specs.Side.{names_of_triples, pad_triples, cell_names as cell_names_spec};

use crate::{Placed, Side, Triple, Voter};
use rr_ids::Name;
use std::alloc::{AllocError, Global};

// Adds the names in triples.
fn add_entries<'a>(names: &mut Vec<&'a Name>, triples: &'a [Triple]) -> Result<(), AllocError>
    ensures { OnOk result (map (λ n. n.now) names.new.items
        ≡ map (λ n. n.now) names.old.items ++ names_of_triples triples.now) }
{
    for triple in triples {
        names.push(&triple.first)?;
        names.push(&triple.second)?;
        names.push(&triple.third)?;
    }
    Ok(())
}

/// The names in the triples of slices.
pub(crate) fn slice_entries(alloc: Global, side: &Side) -> Result<Vec<&Name>, AllocError>
    ensures { IfOk result (λ names. map (λ n. n.now) names.items ≡ names_of_triples side.now.triples) }
{
    let mut names = Vec::new(alloc);
    add_entries(&mut names, side.triples.as_slice())?;
    Ok(names)
}

/// The names in the triples of pads.
pub(crate) fn pad_entries(alloc: Global, side: &Side) -> Result<Vec<&Name>, AllocError>
    ensures { IfOk result (λ names. map (λ n. n.now) names.items ≡ names_of_triples (pad_triples side.now)) }
{
    let mut names = Vec::new(alloc);
    add_entries(&mut names, side.inputs.as_slice())?;
    add_entries(&mut names, side.outputs.as_slice())?;
    add_entries(&mut names, side.clocks.as_slice())?;
    Ok(names)
}

/// The names in all triples.
pub(crate) fn entries(alloc: Global, side: &Side) -> Result<Vec<&Name>, AllocError>
    ensures { IfOk result (λ names. map (λ n. n.now) names.items
        ≡ names_of_triples (side.now.triples ++ pad_triples side.now)) }
{
    let mut names = slice_entries(alloc, side)?;
    add_entries(&mut names, side.inputs.as_slice())?;
    add_entries(&mut names, side.outputs.as_slice())?;
    add_entries(&mut names, side.clocks.as_slice())?;
    Ok(names)
}

/// The names of cells.
pub(crate) fn cell_names(alloc: Global, cells: &[Placed]) -> Result<Vec<&Name>, AllocError>
    ensures { IfOk result (λ names. map (λ n. n.now) names.items ≡ cell_names_spec cells.now) }
{
    let mut names = Vec::new(alloc);
    for cell in cells {
        names.push(&cell.name)?;
    }
    Ok(names)
}

/// The slices that voters name.
pub(crate) fn voter_names(alloc: Global, voters: &[Voter]) -> Result<Vec<&Name>, AllocError>
    ensures { IfOk result (λ names. map (λ n. n.now) names.items ≡ map (λ voter. voter.slice) voters.now) }
{
    let mut names = Vec::new(alloc);
    for voter in voters {
        names.push(&voter.slice)?;
    }
    Ok(names)
}
