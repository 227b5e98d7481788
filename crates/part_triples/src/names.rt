//! Names with a place.

ghost use Rattle.std.specs.Prelude.{◌≡◌, OnOk};
ghost use Rattle.std.specs.Str.{bytes_eq};
ghost use Rattle.part_triples.specs.Places.{AddsPlace, place_in};

use crate::CellTripleId;
use rr_ids::{Id, Name};
use std::alloc::AllocError;
use std::collections::BTreeMap;

/// Writes a place at a name that has none yet.
pub(crate) fn add_name<'a>(
    places: &mut BTreeMap<&'a [u8], u32>,
    name: &'a Name,
    place: u32,
) -> Result<(), AllocError>
    ensures { OnOk result (AddsPlace (λ q. bytes_eq q name.now) place places.old places.new) }
{
    match places.get(name.bytes()) {
        Some(_) => Ok(()),
        None => {
            places.insert(name.bytes(), place)?;
            Ok(())
        }
    }
}

/// The place of a name.
pub(crate) fn place_of(places: &BTreeMap<&[u8], u32>, name: &Name) -> Option<CellTripleId>
    ensures { result ≡ place_in places.now name.now }
{
    match places.get(name.bytes()) {
        Some(place) => Some(CellTripleId::from_u32(*place)),
        None => None,
    }
}
