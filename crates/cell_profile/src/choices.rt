//! Choices: what a value of a setting makes a cell take.

ghost use Rattle.std.specs.Prelude.{◌≡◌, map};
ghost use Rattle.serde_json.specs.View.{view};
ghost use Rattle.json_forms.specs.Each.{each};
ghost use Rattle.json_forms.specs.Values.{member_in};
ghost use Rattle.json_forms.specs.Choices as choices;
ghost use Rattle.json_values.specs.Reads.{Reads};
ghost use Rattle.cell_profile.specs.Takes.{take_for};

use crate::Take;
use crate::takes::{Purpose, read_take};
use json_values::{FormError, elements, name_or_empty, named, pair};
use rr_ids::{List, Name};
use serde_json::Value;
use std::alloc::Global;
use std::marker::Model;

/// A case of a choice: what is taken at a value, or always where the choice has no setting. Contracts see the
/// record of the fields.
#[derive(Drop)]
pub struct Case {
    pub value: Option<Name>,
    pub take: Take,
}

impl Model for Case {
    ghost use Rattle.records.specs.Profile.{Case as Record};
    ghost use Rattle.cell_profile.specs.Takes.{take_of};

    ghost Value = { Record };

    ghost view = { λ c. record { value = c.value; take = take_of c.take } };
}

/// What is taken by the value of a setting, or always where there is no setting; of cases with one value the first
/// counts. Contracts see the record of the fields.
#[derive(Drop)]
pub struct Choice {
    pub setting: Option<Name>,
    pub cases: List<Case>,
}

impl Model for Choice {
    ghost use Rattle.records.specs.Profile.{Choice as Record};

    ghost Value = { Record };

    ghost view = { λ c. record { setting = c.setting; cases = c.cases } };
}

// The value of a case: a name where the choice has a setting, and else empty.
fn case_value(alloc: Global, has_setting: bool, text: &str) -> Result<Option<Name>, FormError>
    ensures { Reads (λ value. value) result (choices.case_value has_setting text.now) }
{
    if has_setting {
        return Ok(Some(named(alloc, text.as_bytes())?));
    }
    if text.is_empty() {
        return Ok(None);
    }
    Err(FormError::Unfit)
}

// The case that a value is.
fn read_case(
    alloc: Global,
    purpose: Purpose,
    has_setting: bool,
    value: &Value,
) -> Result<Case, FormError>
    ensures { Reads (λ case. case) result
        (choices.case_in has_setting (take_for purpose) (view value.now)) }
{
    let (value, taken) = pair(value).ok_or(FormError::Unfit)?;
    let value = value.as_str().ok_or(FormError::Unfit)?;
    let value = case_value(alloc, has_setting, value)?;
    let taken = taken.as_str().ok_or(FormError::Unfit)?;
    let take = read_take(alloc, purpose, taken.as_bytes())?;
    Ok(Case { value, take })
}

// The cases that values are.
fn read_cases(
    alloc: Global,
    purpose: Purpose,
    has_setting: bool,
    values: &[Value],
) -> Result<List<Case>, FormError>
    ensures { Reads (λ cases. cases) result
        (each (choices.case_in has_setting (take_for purpose)) (map view values.now)) }
{
    let mut cases = List::new(alloc);
    for value in values {
        cases.push(read_case(alloc, purpose, has_setting, value)?)?;
    }
    Ok(cases)
}

// Whether a choice may have this many cases: one or more where there is a setting, and else one.
fn is_case_count(has_setting: bool, count: usize) -> bool
    ensures { result ≡ choices.is_case_count has_setting count }
{
    if has_setting { 0 < count } else { count == 1 }
}

// The choice that a value is.
#[tactic(auto, unfolding(json_forms::specs::Choices::choice_in))]
fn read_choice(alloc: Global, purpose: Purpose, value: &Value) -> Result<Choice, FormError>
    ensures { Reads (λ choice. choice) result (choices.choice_in (take_for purpose) (view value.now)) }
{
    let (setting, values) = pair(value).ok_or(FormError::Unfit)?;
    let setting = name_or_empty(alloc, setting)?;
    let has_setting = setting.is_some();
    let values = elements(values).ok_or(FormError::Unfit)?;
    let cases = read_cases(alloc, purpose, has_setting, values)?;
    if !is_case_count(has_setting, cases.len()) {
        return Err(FormError::Unfit);
    }
    Ok(Choice { setting, cases })
}

/// The choice that the member of a name is.
pub(crate) fn choice_member(
    alloc: Global,
    purpose: Purpose,
    object: &Value,
    name: &str,
) -> Result<Choice, FormError>
    ensures { Reads (λ choice. choice) result
        (member_in name.now (choices.choice_in (take_for purpose)) (view object.now)) }
{
    read_choice(alloc, purpose, object.get(name).ok_or(FormError::Unfit)?)
}
