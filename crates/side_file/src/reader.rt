//! The reader of side files.

ghost use Rattle.std.specs.Prelude.{codes, map};
ghost use Rattle.serde_json.specs.View.{view};
ghost use Rattle.words.specs.OrMemory.{OrMemory};
ghost use Rattle.json_forms.specs.Lists.{list_read, any_form};
ghost use Rattle.json_values.specs.Faults.{list_fault};
ghost use Rattle.side_form.specs.Placings.{placed_in, names_in, voter_in};
ghost use Rattle.side_form.specs.Side.{side_in as side_in_spec, clocks_read, side_of};
ghost use Rattle.side_file.specs.Faults.{fault_of};

use crate::checks::checked;
use crate::{Placed, Side, SideError, Triple, Voter};
use json_values::{
    AnyForm, FormError, ListError, elements_member, judged_elements, judged_list_member,
};
use rr_ids::{List, Text};
use serde_json::Value;
use std::alloc::Global;

// The cells that a member lists.
fn cells(alloc: Global, file: &Value, member: &str) -> Result<List<Placed>, ListError>
    ensures { OrMemory (λ cells. cells) list_fault result
        (list_read member.now placed_in any_form (view file.now)) }
{
    let mut judge = AnyForm;
    judged_list_member::<Placed, AnyForm>(alloc, file, member, &mut judge)
}

// The triples that a member lists.
fn triples(alloc: Global, file: &Value, member: &str) -> Result<List<Triple>, ListError>
    ensures { OrMemory (λ triples. triples) list_fault result
        (list_read member.now names_in any_form (view file.now)) }
{
    let mut judge = AnyForm;
    judged_list_member::<Triple, AnyForm>(alloc, file, member, &mut judge)
}

// The triples of clocks, of which there is one at most.
fn clocks(alloc: Global, file: &Value) -> Result<List<Triple>, ListError>
    ensures { OrMemory (λ triples. triples) list_fault result (clocks_read (view file.now)) }
{
    match elements_member(file, "clocks") {
        Some(values) if values.len() <= 1 => {
            let mut judge = AnyForm;
            judged_elements::<Triple, AnyForm>(alloc, "clocks", &mut judge, values)
        }
        _ => Err(ListError::BadShape(Text::new(alloc, b"clocks")?)),
    }
}

fn voters(alloc: Global, file: &Value) -> Result<List<Voter>, ListError>
    ensures { OrMemory (λ voters. voters) list_fault result
        (list_read (codes "voters") voter_in any_form (view file.now)) }
{
    let mut judge = AnyForm;
    judged_list_member::<Voter, AnyForm>(alloc, file, "voters", &mut judge)
}

// The lists of a side file by their forms.
fn side_in(alloc: Global, file: &Value) -> Result<Side, ListError>
    ensures { OrMemory (λ side. side) list_fault result (side_in_spec (view file.now)) }
{
    Ok(Side {
        slices: cells(alloc, file, "slices")?,
        pads: cells(alloc, file, "pads")?,
        triples: triples(alloc, file, "triples")?,
        inputs: triples(alloc, file, "inputs")?,
        outputs: triples(alloc, file, "outputs")?,
        clocks: clocks(alloc, file)?,
        voters: voters(alloc, file)?,
    })
}

/// The side file that bytes are read as, with `serde_json`; else their first fault.
pub fn read(alloc: Global, bytes: &[u8]) -> Result<Side, SideError>
    ensures { OrMemory (λ side. side) fault_of result (side_of bytes.now) }
{
    let file = match json_values::reading(alloc, bytes) {
        Ok(file) => file,
        Err(FormError::Unfit) => return Err(SideError::NotJson),
        Err(FormError::Memory) => return Err(SideError::Memory),
    };
    if file.as_object().is_none() {
        return Err(SideError::BadShape(Text::new(alloc, b".")?));
    }
    checked(alloc, side_in(alloc, &file)?)
}
