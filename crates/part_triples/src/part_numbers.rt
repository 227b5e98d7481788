//! The number of the triple of each part with an output.

ghost use Rattle.std.specs.Prelude.{◌≡◌, IfOk, None, get_or, map};
ghost use Rattle.part_triples.specs.Places.{place_in};

use crate::CellTripleId;
use crate::names::place_of;
use cell_parts::Source;
use circuit_parts::SourceId;
use rr_ids::Id;
use std::alloc::{AllocError, Global};
use std::collections::BTreeMap;

/// The place of each part's cell.
#[tactic(auto, using(circuit_parts::proofs::Gathered::map_more, circuit_parts::proofs::Gathered::map_all))]
pub(crate) fn numbers(
    alloc: Global,
    places: &BTreeMap<&[u8], u32>,
    sources: &[Source<'_>],
) -> Result<Vec<Option<CellTripleId>>, AllocError>
    ensures { IfOk result (λ v. v.items ≡ map (λ s. place_in places.now s.part.cell) sources.now) }
{
    let mut numbers = Vec::with_capacity(alloc, sources.len())?;
    for source in sources {
        numbers.push(place_of(places, source.cell))?;
    }
    Ok(numbers)
}

/// The number at a place.
pub(crate) fn number_at(numbers: &[Option<CellTripleId>], k: SourceId) -> Option<CellTripleId>
    ensures { result ≡ get_or numbers.now k None }
{
    let place = k.to_u32() as usize;
    if place >= numbers.len() {
        return None;
    }
    numbers[place]
}
