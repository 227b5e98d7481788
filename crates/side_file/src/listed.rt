//! Names that are listed as what they are used as, and cells that are in triples.

ghost use Rattle.std.specs.Prelude.{◌≡◌, map, not, find, None, IfOk, IsTrue, option_map};
ghost use Rattle.std.specs.Option.{option_copied};
ghost use Rattle.side_form.specs.Side as side_form;
ghost use Rattle.side_file.specs.Known.{KnowsNames, has_name};

use crate::Side;
use crate::digest::digest;
use crate::names::{cell_names, pad_entries, slice_entries, voter_names};
use rr_ids::Name;
use std::alloc::{AllocError, Global};
use std::collections::BTreeSet;

// The set of names.
fn set_of<'a>(alloc: Global, names: &[&'a Name]) -> Result<BTreeSet<(u64, &'a Name)>, AllocError>
    ensures { IfOk result (λ set. KnowsNames set (map (λ n. n.now) names.now)) }
{
    let mut set = BTreeSet::<(u64, &Name)>::new(alloc);
    for name in names {
        set.insert((digest(name), *name))?;
    }
    Ok(set)
}

// The first name that isn't in a set.
fn first_missing<'a>(names: &[&'a Name], set: &BTreeSet<(u64, &'a Name)>) -> Option<&'a Name>
    ensures { option_copied result ≡ find (λ name. not (has_name set.now name)) (map (λ n. n.now) names.now) }
{
    for name in names {
        if !set.contains(&(digest(name), *name)) {
            return Some(*name);
        }
    }
    None
}

// The first of some names that isn't among others.
fn first_outside<'a>(
    alloc: Global,
    names: &[&'a Name],
    listed: &[&'a Name],
) -> Result<Option<&'a Name>, AllocError>
    ensures { IfOk result (λ name. option_copied name
        ≡ side_form.first_outside (map (λ n. n.now) names.now) (map (λ n. n.now) listed.now)) }
{
    if names.is_empty() {
        return Ok(None);
    }
    Ok(first_missing(names, &set_of(alloc, listed)?))
}

// The first name in the triples of slices that is no slice.
fn unlisted_slice(alloc: Global, side: &Side) -> Result<Option<&Name>, AllocError>
    ensures { IfOk result (λ name. option_copied name ≡ side_form.first_outside
        (side_form.names_of_triples side.now.triples) (side_form.cell_names side.now.slices)) }
{
    let slices = cell_names(alloc, side.slices.as_slice())?;
    let entries = slice_entries(alloc, side)?;
    first_outside(alloc, &entries, &slices)
}

// The first name in the triples of pads that is no pad.
fn unlisted_pad(alloc: Global, side: &Side) -> Result<Option<&Name>, AllocError>
    ensures { IfOk result (λ name. option_copied name ≡ side_form.first_outside
        (side_form.names_of_triples (side_form.pad_triples side.now)) (side_form.cell_names side.now.pads)) }
{
    let pads = cell_names(alloc, side.pads.as_slice())?;
    let entries = pad_entries(alloc, side)?;
    first_outside(alloc, &entries, &pads)
}

// The first name in voters that is no slice.
fn unlisted_voter(alloc: Global, side: &Side) -> Result<Option<&Name>, AllocError>
    ensures { IfOk result (λ name. option_copied name ≡ side_form.first_outside
        (map (λ voter. voter.slice) side.now.voters) (side_form.cell_names side.now.slices)) }
{
    let slices = cell_names(alloc, side.slices.as_slice())?;
    let voters = voter_names(alloc, side.voters.as_slice())?;
    first_outside(alloc, &voters, &slices)
}

/// The first name that isn't listed as what it is used as: slices in triples, pads in inputs, outputs and clocks, and
/// slices in voters. Entries of triples that are in the domains of their places are listed.
pub(crate) fn unknown_name(
    alloc: Global,
    side: &Side,
    is_in_place: bool,
) -> Result<Option<&Name>, AllocError>
    requires { IsTrue is_in_place → side_form.wrong_domain side.now ≡ None }
    ensures { IfOk result (λ name. side_form.unknown_name side.now
        ≡ option_map side_form.SideFault.UnknownName (option_copied name)) }
{
    if is_in_place {
        return unlisted_voter(alloc, side);
    }
    if let Some(name) = unlisted_slice(alloc, side)? {
        return Ok(Some(name));
    }
    if let Some(name) = unlisted_pad(alloc, side)? {
        return Ok(Some(name));
    }
    unlisted_voter(alloc, side)
}

// The first slice that is in no triple.
fn lone_slice(alloc: Global, side: &Side) -> Result<Option<&Name>, AllocError>
    ensures { IfOk result (λ name. option_copied name ≡ side_form.first_outside
        (side_form.cell_names side.now.slices) (side_form.names_of_triples side.now.triples)) }
{
    let slices = cell_names(alloc, side.slices.as_slice())?;
    let entries = slice_entries(alloc, side)?;
    first_outside(alloc, &slices, &entries)
}

// The first pad that is in no triple.
fn lone_pad(alloc: Global, side: &Side) -> Result<Option<&Name>, AllocError>
    ensures { IfOk result (λ name. option_copied name ≡ side_form.first_outside
        (side_form.cell_names side.now.pads) (side_form.names_of_triples (side_form.pad_triples side.now))) }
{
    let pads = cell_names(alloc, side.pads.as_slice())?;
    let entries = pad_entries(alloc, side)?;
    first_outside(alloc, &pads, &entries)
}

/// The first cell that is in no triple.
pub(crate) fn unpaired(alloc: Global, side: &Side) -> Result<Option<&Name>, AllocError>
    ensures { IfOk result (λ name. side_form.unpaired side.now
        ≡ option_map side_form.SideFault.Unpaired (option_copied name)) }
{
    if let Some(name) = lone_slice(alloc, side)? {
        return Ok(Some(name));
    }
    lone_pad(alloc, side)
}
