//! Values of a form, lists of them, and members that are such.

ghost use Rattle.std.specs.Prelude.{◌≡◌, map, option_map};
ghost use Rattle.serde_json.specs.Data.{Data};
ghost use Rattle.serde_json.specs.View.{view};
ghost use Rattle.json_forms.specs.Values.{member_in, list_in};
ghost use Rattle.json_forms.specs.Parts.{list_of, pair_in, triple_in};
ghost use Rattle.json_values.specs.Reads.{Reads};

use crate::{FormError, elements, name};
use rr_ids::{List, Name};
use serde_json::Value;
use std::alloc::Global;

/// A type whose values stand for JSON values of a form.
pub trait FromJson: Drop {
    ghost use Rattle.std.specs.Prelude.{Option};

    /// What a JSON value stands for.
    ghost value_in: { Data → Option Self };

    /// What a JSON value stands for; `Unfit` where it has another form.
    fn from_json(alloc: Global, value: &Value) -> Result<Self, FormError>
    where
        Self: Sized,
        ensures { Reads (λ it. it) result (value_in (view value.now)) };
}

impl FromJson for Name {
    ghost use Rattle.json_forms.specs.Values.{name_in};

    ghost value_in = { name_in };

    fn from_json(alloc: Global, value: &Value) -> Result<Name, FormError> {
        name(alloc, value)
    }
}

/// The list of what the elements of a value stand for; `Unfit` where it is no list, or one of its elements has
/// another form.
pub fn list_as<T: FromJson>(alloc: Global, value: &Value) -> Result<List<T>, FormError>
    ensures { Reads (λ it. it) result (list_of T.value_in (view value.now)) }
{
    let values = elements(value).ok_or(FormError::Unfit)?;
    let mut list = List::from_vec(Vec::with_capacity(alloc, values.len())?);
    for element in values {
        list.push(T::from_json(alloc, element)?)?;
    }
    Ok(list)
}

/// What the member of a name stands for; `Unfit` where there is none, or it has another form.
pub fn member_as<T: FromJson>(alloc: Global, object: &Value, name: &str) -> Result<T, FormError>
    ensures { Reads (λ it. it) result (member_in name.now T.value_in (view object.now)) }
{
    T::from_json(alloc, object.get(name).ok_or(FormError::Unfit)?)
}

/// The list of what the elements of the member of a name stand for; `Unfit` where there is no such member, it is no list,
/// or one of its elements has another form.
pub fn list_member_as<T: FromJson>(
    alloc: Global,
    object: &Value,
    name: &str,
) -> Result<List<T>, FormError>
    ensures { Reads (λ it. it) result (member_in name.now (list_of T.value_in) (view object.now)) }
{
    list_as::<T>(alloc, object.get(name).ok_or(FormError::Unfit)?)
}

/// The elements of the list in the member of a name, in order; `None` where the value is no object or has no such member,
/// and where the member is no list.
pub fn elements_member<'a>(object: &'a Value, name: &str) -> Option<&'a [Value]>
    ensures { option_map (λ values. map view values.now) result ≡ member_in name.now list_in (view object.now) }
{
    elements(object.get(name)?)
}

/// The elements of a list of two, in order; `None` where the value is no list, or one of another length.
pub fn pair(value: &Value) -> Option<(&Value, &Value)>
    ensures { option_map (λ two. (view two.0.now, view two.1.now)) result ≡ pair_in (view value.now) }
{
    match elements(value)? {
        [first, second] => Some((first, second)),
        _ => None,
    }
}

/// The elements of a list of three, in order; `None` where the value is no list, or one of another length.
pub fn triple(value: &Value) -> Option<(&Value, &Value, &Value)>
    ensures { option_map (λ three. (view three.0.now, view three.1.now, view three.2.now)) result
        ≡ triple_in (view value.now) }
{
    match elements(value)? {
        [first, second, third] => Some((first, second, third)),
        _ => None,
    }
}
