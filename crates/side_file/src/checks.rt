//! What the lists of a side file keep beside their forms.

ghost use Rattle.std.specs.Prelude.{◌≡◌, None, option_map, nat_lt, IsTrue};
ghost use Rattle.std.specs.Option.{option_copied};
ghost use Rattle.words.specs.OrMemory.{OrMemory};
ghost use Rattle.words.specs.Firsts.{unless_fault};
ghost use Rattle.rr_ids.specs.Limits.{limit_of};
ghost use Rattle.json_forms.specs.Faults as form;
ghost use Rattle.side_form.specs.Side as side_form;
ghost use Rattle.side_file.specs.Faults.{fault_of};

use crate::domains::wrong_domain;
use crate::listed::{unknown_name, unpaired};
use crate::uses::second_use;
use crate::{Side, SideError};
use rr_ids::{Limit, Name};
use std::alloc::Global;

// The most slices and pads of a side file.
const MOST_SLICES: usize = 262_144;

const MOST_PADS: usize = 65_536;

// Whether a count is above the most that there may be.
fn exceeds(count: usize, most: usize) -> bool
    ensures { result ≡ nat_lt most count }
{
    count > most
}

// The limit that is passed.
fn size_fault(side: &Side) -> Option<Limit>
    ensures { side_form.size_fault side.now
        ≡ option_map (λ limit. side_form.SideFault.OfForm (form.FormFault.TooLarge (limit_of limit))) result }
{
    if exceeds(side.slices.len(), MOST_SLICES) {
        return Some(Limit::Slices);
    }
    if exceeds(side.pads.len(), MOST_PADS) {
        return Some(Limit::Pads);
    }
    None
}

// No limit is passed.
fn is_small(side: &Side) -> Result<(), SideError>
    ensures { OrMemory (λ _. side.now) fault_of result (unless_fault (side_form.size_fault side.now) side.now) }
{
    match size_fault(side) {
        Some(limit) => Err(SideError::TooLarge(limit)),
        None => Ok(()),
    }
}

// Nothing is used a second time.
fn is_used_once(alloc: Global, side: &Side) -> Result<(), SideError>
    ensures { OrMemory (λ _. side.now) fault_of result (unless_fault (side_form.second_use side.now) side.now) }
{
    match second_use(alloc, side)? {
        Some(name) => Err(SideError::DuplicateName(name.copy()?)),
        None => Ok(()),
    }
}

// Each name is listed as what it is used as.
fn is_listed(alloc: Global, side: &Side, is_in_place: bool) -> Result<(), SideError>
    requires { IsTrue is_in_place → side_form.wrong_domain side.now ≡ None }
    ensures { OrMemory (λ _. side.now) fault_of result (unless_fault (side_form.unknown_name side.now) side.now) }
{
    match unknown_name(alloc, side, is_in_place)? {
        Some(name) => Err(SideError::UnknownName(name.copy()?)),
        None => Ok(()),
    }
}

// Each cell is in a triple.
fn is_paired(alloc: Global, side: &Side) -> Result<(), SideError>
    ensures { OrMemory (λ _. side.now) fault_of result (unless_fault (side_form.unpaired side.now) side.now) }
{
    match unpaired(alloc, side)? {
        Some(name) => Err(SideError::Unpaired(name.copy()?)),
        None => Ok(()),
    }
}

// Each entry of a triple is in the domain of its place, by the first that isn't.
fn is_in_domains(elsewhere: Option<&Name>, side: &Side) -> Result<(), SideError>
    requires { side_form.wrong_domain side.now ≡ option_map side_form.SideFault.WrongDomain (option_copied elsewhere) }
    ensures { OrMemory (λ _. side.now) fault_of result (unless_fault (side_form.wrong_domain side.now) side.now) }
{
    match elsewhere {
        Some(name) => Err(SideError::WrongDomain(name.copy()?)),
        None => Ok(()),
    }
}

/// The side file again, or the first fault of its lists beside their forms: of limits, of second uses, of names that
/// aren't listed, of cells in no triple, and of domains.
pub(crate) fn checked(alloc: Global, side: Side) -> Result<Side, SideError>
    ensures { OrMemory (λ side. side) fault_of result (unless_fault (side_form.side_fault side) side) }
{
    is_small(&side)?;
    is_used_once(alloc, &side)?;
    let elsewhere = wrong_domain(alloc, &side)?;
    is_listed(alloc, &side, elsewhere.is_none())?;
    is_paired(alloc, &side)?;
    is_in_domains(elsewhere, &side)?;
    Ok(side)
}
