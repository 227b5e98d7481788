//! Places of names.

ghost use Rattle.std.specs.Prelude.{◌≡◌, ◌++◌, ◌∷◌, [], ℕ, List, IfOk, OnOk, length, map, option_and_then, slice_get};
ghost use Rattle.std.specs.Option.{option_copied};
ghost use Rattle.database_names.specs.Places.{HoldsPlaces, place_in, named_in};

use crate::named::Named;
use rr_ids::Name;
use std::alloc::{AllocError, Global};
use std::collections::BTreeMap;

/// The place of the first record of each name.
pub(crate) type Places<'a> = BTreeMap<&'a [u8], usize>;

// Adds the place of one more name, where the name isn't there yet.
fn add<'a>(places: &mut Places<'a>, name: &'a [u8], place: usize) -> Result<(), AllocError>
    ensures { OnOk result ((names : List (List ℕ)) → length names ≡ place → HoldsPlaces names places.old → HoldsPlaces (names ++ name.now ∷ []) places.new) }
{
    if !places.contains_key(name) {
        places.insert(name, place)?;
    }
    Ok(())
}

/// The places of the first records of each name in a list.
pub(crate) fn places_of<'a, T: Named>(
    alloc: Global,
    items: &'a [T],
) -> Result<Places<'a>, AllocError>
    ensures { IfOk result (HoldsPlaces (map T.named items.now)) }
{
    let mut places = Places::new(alloc);
    for (place, item) in items.iter().enumerate() {
        add(&mut places, item.name().bytes(), place)?;
    }
    Ok(places)
}

/// The place of the first record of a name.
pub(crate) fn place_of(places: &Places<'_>, name: &Name) -> Option<usize>
    ensures { (names : List (List ℕ)) → HoldsPlaces names places.now → result ≡ place_in names name.now }
{
    places.get(name.bytes()).copied()
}

/// The record at a place.
pub(crate) fn at<T>(items: &[T], place: usize) -> Option<&T>
    ensures { option_copied result ≡ slice_get items.now place }
{
    items.get(place)
}

/// The first record of a name.
#[tactic(auto, using(crate::proofs::Adding::found, crate::proofs::Adding::not_found))]
pub(crate) fn find<'a, T: Named>(items: &'a [T], places: &Places<'a>, name: &Name) -> Option<&'a T>
    requires { HoldsPlaces (map T.named items.now) places.now }
    ensures { option_copied result ≡ named_in T.named items.now name.now }
{
    match place_of(places, name) {
        Some(place) => at(items, place),
        None => None,
    }
}
