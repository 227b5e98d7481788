//! The text of side files.

ghost use Rattle.std.specs.Prelude.{◌≡◌, false, map, string_bytes, IfOk, OnOk};
ghost use Rattle.serde_json.specs.Data.{Data, string, put as with_member};
ghost use Rattle.serde_json.specs.View.{view, members_view};
ghost use Rattle.rr_ids.specs.Domains.{domain_of};
ghost use Rattle.side_form.specs.SidePrint.{domain_number, list_value as list_value_spec, side_value as side_value_spec, side_text};

use crate::{Placed, Side, Triple, Voter};
use rr_ids::{Domain, List, Name};
use serde_json::{Map, Value, json, put};
use std::alloc::{AllocError, Global};

/// What is printed as a JSON value.
trait ToJson {
    ghost use Rattle.std.specs.Prelude.{◌≡◌, IfOk};
    ghost use Rattle.serde_json.specs.Data.{Data};
    ghost use Rattle.serde_json.specs.View.{view};

    /// The value that it is printed as.
    ghost json: { Self → Data };

    /// The value that it is printed as.
    fn to_json(&self, alloc: Global) -> Result<Value, AllocError>
        ensures { IfOk result (λ value. view value ≡ json self.now) };
}

// The text of a name.
fn name(alloc: Global, name: &Name) -> Result<String, AllocError>
    ensures { IfOk result (λ text. string_bytes text ≡ name.now) }
{
    String::from_utf8_lossy(alloc, name.bytes())
}

fn number(domain: Domain) -> u8
    ensures { result ≡ domain_number (domain_of domain) }
{
    match domain {
        Domain::D0 => 0,
        Domain::D1 => 1,
        Domain::D2 => 2,
    }
}

impl ToJson for Placed {
    ghost use Rattle.side_form.specs.SidePrint.{placed_value};

    ghost json = { placed_value };

    fn to_json(&self, alloc: Global) -> Result<Value, AllocError> {
        let cell = name(alloc, &self.name)?;
        let tile = name(alloc, &self.tile)?;
        let kind = name(alloc, &self.kind)?;
        json!(in alloc; [cell, tile, kind, number(self.domain)])
    }
}

impl ToJson for Triple {
    ghost use Rattle.side_form.specs.SidePrint.{triple_value};

    ghost json = { triple_value };

    fn to_json(&self, alloc: Global) -> Result<Value, AllocError> {
        let first = name(alloc, &self.first)?;
        let second = name(alloc, &self.second)?;
        let third = name(alloc, &self.third)?;
        json!(in alloc; [first, second, third])
    }
}

impl ToJson for Voter {
    ghost use Rattle.side_form.specs.SidePrint.{voter_value};

    ghost json = { voter_value };

    fn to_json(&self, alloc: Global) -> Result<Value, AllocError> {
        let slice = name(alloc, &self.slice)?;
        json!(in alloc; [slice, self.table])
    }
}

// A list of values.
fn list<T: ToJson>(alloc: Global, items: &[T]) -> Result<Value, AllocError>
    ensures { IfOk result (λ value. view value ≡ list_value_spec (map T.json items.now)) }
{
    let mut values = Vec::new(alloc);
    for item in items {
        values.push(item.to_json(alloc)?)?;
    }
    Ok(Value::Array(values))
}

// Adds a list to an object.
fn add_list<T: ToJson>(
    members: &mut Map<String, Value>,
    alloc: Global,
    name: &str,
    items: &List<T>,
) -> Result<(), AllocError>
    ensures { OnOk result (members_view members.new.entries
        ≡ with_member name.now (list_value_spec (map T.json items.now)) (members_view members.old.entries)) }
{
    let values = list::<T>(alloc, items.as_slice())?;
    put(members, alloc, name, values)
}

// The object of a side file.
fn object(alloc: Global, side: &Side) -> Result<Value, AllocError>
    ensures { IfOk result (λ value. view value ≡ side_value_spec side.now) }
{
    let mut members = Map::new(alloc);
    add_list::<Triple>(&mut members, alloc, "clocks", &side.clocks)?;
    add_list::<Triple>(&mut members, alloc, "inputs", &side.inputs)?;
    add_list::<Triple>(&mut members, alloc, "outputs", &side.outputs)?;
    add_list::<Placed>(&mut members, alloc, "pads", &side.pads)?;
    add_list::<Placed>(&mut members, alloc, "slices", &side.slices)?;
    add_list::<Triple>(&mut members, alloc, "triples", &side.triples)?;
    add_list::<Voter>(&mut members, alloc, "voters", &side.voters)?;
    Ok(Value::Object(members))
}

/// The text of a side file, with `serde_json`: compact JSON and one line feed.
pub fn print(alloc: Global, side: &Side) -> Result<Vec<u8>, AllocError>
    ensures { IfOk result (λ text. text.items ≡ side_text side.now) }
{
    let mut text = object(alloc, side)?.to_string(alloc)?.into_bytes();
    text.push(b'\n')?;
    Ok(text)
}
