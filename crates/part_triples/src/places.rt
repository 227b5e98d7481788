//! The place of the first triple in which each name stands.

ghost use Rattle.std.specs.Prelude.{map, IfOk, OnOk};
ghost use Rattle.circuit.specs.Triples.{is_entry};
ghost use Rattle.part_triples.specs.Places.{AddsPlace, HoldsPlaces};

use crate::names::add_name;
use side_file::Triple;
use std::alloc::{AllocError, Global};
use std::collections::BTreeMap;

// The most triples that have a place.
const MOST_TRIPLES: usize = 4_294_967_295;

// Writes a place at the names of a triple that have none yet.
#[tactic(auto, using(crate::proofs::Adding::triple_added))]
fn add_triple<'a>(
    places: &mut BTreeMap<&'a [u8], u32>,
    triple: &'a Triple,
    place: u32,
) -> Result<(), AllocError>
    ensures { OnOk result (AddsPlace (λ q. is_entry q triple.now) place places.old places.new) }
{
    add_name(places, &triple.first, place)?;
    add_name(places, &triple.second, place)?;
    add_name(places, &triple.third, place)
}

/// The place of the first triple in which each name stands; 4,294,967,296 triples take all memory there is.
#[tactic(auto, using(crate::proofs::Adding::places_more, crate::proofs::Adding::places_all))]
pub(crate) fn places<'a>(
    alloc: Global,
    triples: &[&'a Triple],
) -> Result<BTreeMap<&'a [u8], u32>, AllocError>
    ensures { IfOk result (HoldsPlaces (map (λ t. t.now) triples.now)) }
{
    if triples.len() > MOST_TRIPLES {
        return Err(AllocError);
    }
    let mut places = BTreeMap::new(alloc);
    for (place, triple) in triples.iter().enumerate() {
        add_triple(&mut places, *triple, place as u32)?;
    }
    Ok(places)
}
