//! Cell profiles.

ghost use Rattle.std.specs.Prelude.{codes};
ghost use Rattle.std.specs.Option.{ok_or};
ghost use Rattle.serde_json.specs.View.{view};
ghost use Rattle.words.specs.OrMemory.{OrMemory};
ghost use Rattle.json_forms.specs.Values.{member_in, name_in};
ghost use Rattle.json_forms.specs.Parts.{name_or_empty_in};
ghost use Rattle.json_forms.specs.Faults as form;
ghost use Rattle.json_forms.specs.Kinds.{join_in, slice_in, pad_in};
ghost use Rattle.json_forms.specs.Profile.{slice_verdict, pad_verdict, profile_of, profile_of_value as profile_of_value_spec};
ghost use Rattle.json_forms.specs.Lists.{list_read, any_form};
ghost use Rattle.cell_profile.specs.Faults.{fault_of};

use crate::judges::{PadJudge, SliceJudge};
use crate::{Join, PadKind, ProfileError, SliceKind};
use json_values::{AnyForm, FormError, judged_list_member};
use rr_ids::{List, Name, Rules, Text};
use serde_json::Value;
use std::alloc::Global;
use std::marker::Model;

/// A cell profile: how names of wires are read, the connections that are always there, and the kinds of slices and
/// pads. Contracts see the record of the fields.
#[derive(Drop)]
pub struct Profile {
    pub rules: Rules,
    pub joins: List<Join>,
    pub slices: List<SliceKind>,
    pub pads: List<PadKind>,
}

impl Model for Profile {
    ghost use Rattle.records.specs.Profile.{Profile as Record};

    ghost Value = { Record };

    ghost view = { λ p. record { rules = p.rules; joins = p.joins; slices = p.slices; pads = p.pads } };
}

// The prefix of the chip.
fn chip_prefix(alloc: Global, file: &Value) -> Result<Option<Name>, ProfileError>
    ensures { OrMemory (λ prefix. prefix) fault_of result
        (ok_or (member_in (codes "chip_prefix") name_or_empty_in (view file.now))
        (form.FormFault.BadShape (codes "chip_prefix"))) }
{
    match json_values::name_or_empty_member(alloc, file, "chip_prefix") {
        Ok(prefix) => Ok(prefix),
        Err(FormError::Unfit) => Err(ProfileError::BadShape(Text::new(alloc, b"chip_prefix")?)),
        Err(FormError::Memory) => Err(ProfileError::Memory),
    }
}

// The names that a member lists.
fn names(alloc: Global, file: &Value, member: &str) -> Result<List<Name>, ProfileError>
    ensures { OrMemory (λ names. names) fault_of result
        (list_read member.now name_in any_form (view file.now)) }
{
    let mut judge = AnyForm;
    Ok(judged_list_member::<Name, AnyForm>(alloc, file, member, &mut judge)?)
}

// The connections that are always there.
fn joins(alloc: Global, file: &Value) -> Result<List<Join>, ProfileError>
    ensures { OrMemory (λ joins. joins) fault_of result
        (list_read (codes "joins") join_in any_form (view file.now)) }
{
    let mut judge = AnyForm;
    Ok(judged_list_member::<Join, AnyForm>(alloc, file, "joins", &mut judge)?)
}

// The kinds of slices.
fn slices(
    alloc: Global,
    file: &Value,
    other_chips: &[Name],
) -> Result<List<SliceKind>, ProfileError>
    ensures { OrMemory (λ kinds. kinds) fault_of result
        (list_read (codes "slices") slice_in (slice_verdict other_chips.now) (view file.now)) }
{
    let mut judge = SliceJudge::new(alloc, other_chips)?;
    Ok(judged_list_member::<SliceKind, SliceJudge>(alloc, file, "slices", &mut judge)?)
}

// The kinds of pads, which stand behind those of slices.
fn pads(
    alloc: Global,
    file: &Value,
    other_chips: &[Name],
    slices: &[SliceKind],
) -> Result<List<PadKind>, ProfileError>
    ensures { OrMemory (λ kinds. kinds) fault_of result
        (list_read (codes "pads") pad_in (pad_verdict other_chips.now slices.now) (view file.now)) }
{
    let mut judge = PadJudge::new(alloc, other_chips, slices)?;
    Ok(judged_list_member::<PadKind, PadJudge>(alloc, file, "pads", &mut judge)?)
}

// The profile that an object is.
#[tactic(auto, unfolding(json_forms::specs::Profile::profile_of_value))]
fn profile_of_value(alloc: Global, file: &Value) -> Result<Profile, ProfileError>
    ensures { OrMemory (λ profile. profile) fault_of result (profile_of_value_spec (view file.now)) }
{
    let chip_prefix = chip_prefix(alloc, file)?;
    let other_chips = names(alloc, file, "other_chips")?;
    let wide = names(alloc, file, "wide")?;
    let joins = joins(alloc, file)?;
    let slices = slices(alloc, file, other_chips.as_slice())?;
    let pads = pads(alloc, file, other_chips.as_slice(), slices.as_slice())?;
    let rules = Rules {
        chip_prefix,
        other_chips,
        wide,
    };
    Ok(Profile {
        rules,
        joins,
        slices,
        pads,
    })
}

/// The profile that the bytes of a file are read as, with `serde_json`; else their first fault.
pub fn read(alloc: Global, bytes: &[u8]) -> Result<Profile, ProfileError>
    ensures { OrMemory (λ profile. profile) fault_of result (profile_of bytes.now) }
{
    let file = match json_values::reading(alloc, bytes) {
        Ok(file) => file,
        Err(FormError::Unfit) => return Err(ProfileError::NotJson),
        Err(FormError::Memory) => return Err(ProfileError::Memory),
    };
    if file.as_object().is_none() {
        return Err(ProfileError::BadShape(Text::new(alloc, b".")?));
    }
    profile_of_value(alloc, &file)
}
