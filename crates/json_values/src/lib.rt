//! Parts of JSON values: what a file's bytes are read as, and the names, numbers and lists in it.
#![tactic(auto)]

ghost use Rattle.std.specs.Prelude.{◌≡◌, ◌≤◌, map, option_map, IfSome};
ghost use Rattle.serde_json.specs.View.{view};
ghost use Rattle.json_forms.specs.Values.{reading_of, list_in, if_name, name_in, whole_in, member_in};
ghost use Rattle.json_forms.specs.Parts.{name_or_empty_in};
ghost use Rattle.json_values.specs.Reads.{Reads};

mod judges;
mod lists;
mod members;

pub use judges::{AnyForm, Judge, Verdict};
pub use lists::{FromJson, elements_member, list_as, list_member_as, member_as, pair, triple};
pub use members::{ListError, judged_elements, judged_list_member};
use rr_ids::{Name, NameError};
use serde_json::Value;
use std::alloc::{AllocError, AllocFailed, Global};

/// Why a value isn't given.
#[derive(Clone, Copy, Debug, PartialEq, Eq)]
pub enum FormError {
    /// The bytes or the value are of another form.
    Unfit,
    /// There was no memory for what is given.
    Memory,
}

impl From<AllocError> for FormError {
    ghost use Rattle.json_values.specs.declared.FormError.TheVariants.{Memory};
    ghost use Rattle.std.specs.Prelude.{◌≡◌};

    ghost from_gives = { λ _ e. e ≡ Memory };

    fn from(_error: AllocError) -> FormError {
        FormError::Memory
    }
}

impl<T: Drop> From<AllocFailed<T>> for FormError {
    ghost use Rattle.json_values.specs.declared.FormError.TheVariants.{Memory};
    ghost use Rattle.std.specs.Prelude.{◌≡◌};

    ghost from_gives = { λ _ e. e ≡ Memory };

    fn from(_error: AllocFailed<T>) -> FormError {
        FormError::Memory
    }
}

/// The value that the bytes of a file are read as; `Unfit` where they aren't UTF-8 or have no reading.
pub fn reading(alloc: Global, bytes: &[u8]) -> Result<Value, FormError>
    ensures { Reads view result (reading_of bytes.now) }
{
    match Value::from_slice(alloc, bytes) {
        Ok(value) => Ok(value),
        Err(error) => if error.is_memory() {
            Err(FormError::Memory)
        } else {
            Err(FormError::Unfit)
        },
    }
}

/// The name of these bytes; `Unfit` where they aren't a name.
pub fn named(alloc: Global, bytes: &[u8]) -> Result<Name, FormError>
    ensures { Reads (λ name. name) result (if_name bytes.now) }
{
    match Name::new(alloc, bytes) {
        Ok(name) => Ok(name),
        Err(NameError::BadName) => Err(FormError::Unfit),
        Err(NameError::Memory) => Err(FormError::Memory),
    }
}

/// The name that a value is; `Unfit` where it is no text, or a text that isn't a name.
pub fn name(alloc: Global, value: &Value) -> Result<Name, FormError>
    ensures { Reads (λ name. name) result (name_in (view value.now)) }
{
    named(alloc, value.as_str().ok_or(FormError::Unfit)?.as_bytes())
}

/// The name that a value is, or nothing for the empty text; `Unfit` where it is no text, or another that isn't a name.
pub fn name_or_empty(alloc: Global, value: &Value) -> Result<Option<Name>, FormError>
    ensures { Reads (λ name. name) result (name_or_empty_in (view value.now)) }
{
    let text = value.as_str().ok_or(FormError::Unfit)?;
    if text.is_empty() {
        return Ok(None);
    }
    Ok(Some(named(alloc, text.as_bytes())?))
}

/// The whole number from 0 up to `most` that a value is; `None` where it is another number, or no number.
pub fn whole(value: &Value, most: u32) -> Option<u32>
    ensures number { result ≡ whole_in most (view value.now) }
    ensures within { IfSome result (λ n. n ≤ most) }
{
    match value.as_u64() {
        Some(number) if number <= u64::from(most) => Some(number as u32),
        _ => None,
    }
}

/// The elements of a value that is a list, in order; `None` where it is no list.
pub fn elements(value: &Value) -> Option<&[Value]>
    ensures { option_map (λ values. map view values.now) result ≡ list_in (view value.now) }
{
    let values = value.as_array()?;
    Some(values.as_slice())
}

/// The name, or nothing for the empty text, that the member of a name is; `Unfit` where the value is no object or has no
/// such member, and where the member is no text, or another that isn't a name.
pub fn name_or_empty_member(
    alloc: Global,
    object: &Value,
    name: &str,
) -> Result<Option<Name>, FormError>
    ensures { Reads (λ it. it) result (member_in name.now name_or_empty_in (view object.now)) }
{
    name_or_empty(alloc, object.get(name).ok_or(FormError::Unfit)?)
}
