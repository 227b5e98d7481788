//! Entries of triples that aren't in the domain of their place.

ghost use Rattle.std.specs.Prelude.{◌≡◌, map, not, find, IfOk, option_map};
ghost use Rattle.std.specs.Option.{option_copied};
ghost use Rattle.rr_ids.specs.Domains.{domain_of};
ghost use Rattle.side_form.specs.Side as side_form;
ghost use Rattle.side_file.specs.Known.{KnowsDomain};
ghost use Rattle.side_file.specs.ByDomain.{is_there, elsewhere_in, KnowsDomains};

use crate::digest::digest;
use crate::{Placed, Side, Triple};
use rr_ids::{Domain, Name};
use std::alloc::{AllocError, Global};
use std::collections::BTreeSet;

/// The names of the cells in each domain.
#[derive(Drop)]
struct ByDomain<'a> {
    zero: BTreeSet<(u64, &'a Name)>,
    one: BTreeSet<(u64, &'a Name)>,
    two: BTreeSet<(u64, &'a Name)>,
}

// The names of the cells in a domain.
fn names_in(
    alloc: Global,
    cells: &[Placed],
    domain: Domain,
) -> Result<BTreeSet<(u64, &Name)>, AllocError>
    ensures { IfOk result (λ set. KnowsDomain (domain_of domain) set cells.now) }
{
    let mut names = BTreeSet::<(u64, &Name)>::new(alloc);
    for cell in cells {
        if cell.domain == domain {
            names.insert((digest(&cell.name), &cell.name))?;
        }
    }
    Ok(names)
}

fn by_domain(alloc: Global, cells: &[Placed]) -> Result<ByDomain<'_>, AllocError>
    ensures { IfOk result (λ sets. KnowsDomains sets cells.now) }
{
    Ok(ByDomain {
        zero: names_in(alloc, cells, Domain::D0)?,
        one: names_in(alloc, cells, Domain::D1)?,
        two: names_in(alloc, cells, Domain::D2)?,
    })
}

// The first entry of a triple that isn't in the domain of its place.
fn entry_elsewhere<'a>(sets: &ByDomain<'a>, triple: &'a Triple) -> Option<&'a Name>
    ensures { option_copied result ≡ option_map (λ entry. entry.0)
        (find (λ entry. not (is_there sets.now entry)) (side_form.entries_of_triple triple.now)) }
{
    if !sets.zero.contains(&(digest(&triple.first), &triple.first)) {
        return Some(&triple.first);
    }
    if !sets.one.contains(&(digest(&triple.second), &triple.second)) {
        return Some(&triple.second);
    }
    if !sets.two.contains(&(digest(&triple.third), &triple.third)) {
        return Some(&triple.third);
    }
    None
}

// The first entry of triples that isn't in the domain of its place.
fn first_elsewhere<'a>(sets: &ByDomain<'a>, triples: &'a [Triple]) -> Option<&'a Name>
    ensures { option_copied result ≡ elsewhere_in sets.now triples.now }
{
    for triple in triples {
        if let Some(name) = entry_elsewhere(sets, triple) {
            return Some(name);
        }
    }
    None
}

// The same in the triples of pads.
fn first_pad_elsewhere<'a>(sets: &ByDomain<'a>, side: &'a Side) -> Option<&'a Name>
    ensures { option_copied result ≡ elsewhere_in sets.now (side_form.pad_triples side.now) }
{
    if let Some(name) = first_elsewhere(sets, side.inputs.as_slice()) {
        return Some(name);
    }
    if let Some(name) = first_elsewhere(sets, side.outputs.as_slice()) {
        return Some(name);
    }
    first_elsewhere(sets, side.clocks.as_slice())
}

// The first entry of the triples of slices in another domain.
fn slice_elsewhere(alloc: Global, side: &Side) -> Result<Option<&Name>, AllocError>
    ensures { IfOk result (λ name. option_copied name
        ≡ side_form.first_elsewhere side.now.slices side.now.triples) }
{
    let sets = by_domain(alloc, side.slices.as_slice())?;
    Ok(first_elsewhere(&sets, side.triples.as_slice()))
}

// The first entry of the triples of pads in another domain.
fn pad_elsewhere(alloc: Global, side: &Side) -> Result<Option<&Name>, AllocError>
    ensures { IfOk result (λ name. option_copied name
        ≡ side_form.first_elsewhere side.now.pads (side_form.pad_triples side.now)) }
{
    let sets = by_domain(alloc, side.pads.as_slice())?;
    Ok(first_pad_elsewhere(&sets, side))
}

/// The first entry of a triple that isn't in the domain of its place.
pub(crate) fn wrong_domain(alloc: Global, side: &Side) -> Result<Option<&Name>, AllocError>
    ensures { IfOk result (λ name. side_form.wrong_domain side.now
        ≡ option_map side_form.SideFault.WrongDomain (option_copied name)) }
{
    if let Some(name) = slice_elsewhere(alloc, side)? {
        return Ok(Some(name));
    }
    pad_elsewhere(alloc, side)
}
