//! Second uses of names, sites and voters.

ghost use Rattle.std.specs.Prelude.{◌≡◌, ◌++◌, map, IfOk, OnOk, option_map};
ghost use Rattle.std.specs.Option.{option_copied};
ghost use Rattle.words.specs.Firsts.{first_fault};
ghost use Rattle.side_form.specs.Side as side_form;

use crate::digest::digest;
use crate::names::entries;
use crate::{Placed, Side, Voter};
use rr_ids::Name;
use std::alloc::{AllocError, Global};
use std::collections::BTreeSet;

// Adds cells to those that are lent.
fn add_cells<'a>(all: &mut Vec<&'a Placed>, cells: &'a [Placed]) -> Result<(), AllocError>
    ensures { OnOk result (map (λ c. c.now) all.new.items ≡ map (λ c. c.now) all.old.items ++ cells.now) }
{
    for cell in cells {
        all.push(cell)?;
    }
    Ok(())
}

// The slices, and then the pads.
fn cells(alloc: Global, side: &Side) -> Result<Vec<&Placed>, AllocError>
    ensures { IfOk result (λ cells. map (λ c. c.now) cells.items ≡ side.now.slices ++ side.now.pads) }
{
    let mut cells = Vec::new(alloc);
    add_cells(&mut cells, side.slices.as_slice())?;
    add_cells(&mut cells, side.pads.as_slice())?;
    Ok(cells)
}

// The name of the first cell whose name or site an earlier one has.
fn second_cell<'a>(alloc: Global, cells: &[&'a Placed]) -> Result<Option<&'a Name>, AllocError>
    ensures { IfOk result (λ name. first_fault side_form.cell_fault (map (λ c. c.now) cells.now)
        ≡ option_map side_form.SideFault.DuplicateName (option_copied name)) }
{
    let mut names = BTreeSet::<(u64, &Name)>::new(alloc);
    let mut sites = BTreeSet::<(u64, (&Name, &Name))>::new(alloc);
    for cell in cells {
        let cell: &'a Placed = cell;
        let is_new = names.insert((digest(&cell.name), &cell.name))?;
        let is_free = sites.insert((digest(&cell.tile), (&cell.tile, &cell.kind)))?;
        if !is_new || !is_free {
            return Ok(Some(&cell.name));
        }
    }
    Ok(None)
}

// The first name that stands a second time.
fn second_name<'a>(alloc: Global, names: &[&'a Name]) -> Result<Option<&'a Name>, AllocError>
    ensures { IfOk result (λ name. first_fault side_form.entry_fault (map (λ n. n.now) names.now)
        ≡ option_map side_form.SideFault.DuplicateName (option_copied name)) }
{
    let mut known = BTreeSet::<(u64, &Name)>::new(alloc);
    for name in names {
        if !known.insert((digest(name), *name))? {
            return Ok(Some(*name));
        }
    }
    Ok(None)
}

// The slice of the first voter that stands a second time.
fn second_voter(alloc: Global, voters: &[Voter]) -> Result<Option<&Name>, AllocError>
    ensures { IfOk result (λ name. first_fault side_form.voter_fault voters.now
        ≡ option_map side_form.SideFault.DuplicateName (option_copied name)) }
{
    let mut known = BTreeSet::<(&Name, u16)>::new(alloc);
    for voter in voters {
        if !known.insert((&voter.slice, voter.table))? {
            return Ok(Some(&voter.slice));
        }
    }
    Ok(None)
}

/// The first second use: of a cell's name or site, with the second cell's name; of a name in all triples together; or of
/// a voter, with its slice.
pub(crate) fn second_use(alloc: Global, side: &Side) -> Result<Option<&Name>, AllocError>
    ensures { IfOk result (λ name. side_form.second_use side.now
        ≡ option_map side_form.SideFault.DuplicateName (option_copied name)) }
{
    let cells = cells(alloc, side)?;
    if let Some(name) = second_cell(alloc, &cells)? {
        return Ok(Some(name));
    }
    let entries = entries(alloc, side)?;
    if let Some(name) = second_name(alloc, &entries)? {
        return Ok(Some(name));
    }
    second_voter(alloc, side.voters.as_slice())
}
