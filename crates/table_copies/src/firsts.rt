//! Parts as those of their triples in domain 0.

ghost use Rattle.std.specs.Prelude.{◌≡◌, ◌+◌, ◌++◌, MatchResult, Some, length, option_map, slice_get};
ghost use Rattle.std.specs.Option.{option_copied};
ghost use Rattle.circuit.specs.Parts.{sources as sources_of};
ghost use Rattle.circuit.specs.Triples.{all_triples, triple_with};
ghost use Rattle.part_triples.specs.Numbers.{number_of, numbers_of};
ghost use Rattle.table_copies.specs.Firsts.{first_at, first_of};

use cell_parts::Source;
use circuit_parts::{Parts, SourceId};
use part_triples::{CellTripleId, PartTriples};
use rr_ids::{Id, Name};
use side_file::{Side, Triple};

// The triple at a place of a list, or the place in what stands behind it.
fn listed(triples: &[Triple], place: usize) -> Result<&Triple, usize>
    ensures { MatchResult result (λ t. slice_get triples.now place ≡ Some t.now) (λ rest. place ≡ length triples.now + rest) }
{
    match triples.get(place) {
        Some(triple) => Ok(triple),
        None => Err(place - triples.len()),
    }
}

// The triple at a place of two lists in a row, or the place in what stands behind them.
fn listed_in<'s>(
    first: &'s [Triple],
    second: &'s [Triple],
    place: usize,
) -> Result<&'s Triple, usize>
    ensures { MatchResult result (λ t. slice_get (first.now ++ second.now) place ≡ Some t.now) (λ rest. place ≡ length (first.now ++ second.now) + rest) }
{
    match listed(first, place) {
        Ok(triple) => Ok(triple),
        Err(rest) => listed(second, rest),
    }
}

// The triple with a number.
fn triple_at(side: &Side, k: CellTripleId) -> Option<&Triple>
    ensures { option_copied result ≡ slice_get (all_triples side.now) k }
{
    let place = k.to_u32() as usize;
    match listed_in(side.triples.as_slice(), side.inputs.as_slice(), place) {
        Ok(triple) => Some(triple),
        Err(rest) => match listed_in(side.outputs.as_slice(), side.clocks.as_slice(), rest) {
            Ok(triple) => Some(triple),
            Err(_) => None,
        },
    }
}

// The name of the first cell of the triple with a number, in which the cell of a part stands, or that of its own where it stands in
// none.
fn first_cell<'s>(side: &'s Side, own: &'s Name, number: Option<CellTripleId>) -> &'s Name
    ensures { number ≡ number_of side.now own.now → result.now ≡ (triple_with side.now own.now).first }
{
    match number {
        None => own,
        Some(k) => match triple_at(side, k) {
            None => own,
            Some(triple) => &triple.first,
        },
    }
}

/// The part with a number.
pub(crate) fn source_at<'s, 'a>(sources: &'s [Source<'a>], k: SourceId) -> Option<&'s Source<'a>>
    ensures { option_copied result ≡ slice_get sources.now k }
{
    sources.get(k.to_u32() as usize)
}

// A part in another cell.
fn in_cell<'s>(source: &Source<'s>, cell: &'s Name) -> Source<'s>
    ensures { result.part ≡ record { cell = cell.now; part = source.now.part.part } }
{
    Source {
        cell,
        part: source.part,
        domain: source.domain,
        kind: source.kind,
        out: source.out,
    }
}

// The part with a number, as that of its triple in domain 0.
fn first_part<'s>(
    parts: &'s Parts<'_>,
    triples: &PartTriples,
    side: &'s Side,
    k: SourceId,
) -> Option<Source<'s>>
    ensures { triples.now ≡ numbers_of side.now (sources_of parts.now) → option_map (λ s. s.part) result ≡ first_at side.now (sources_of parts.now) k }
{
    match source_at(parts.sources(), k) {
        None => None,
        Some(source) => {
            let cell = first_cell(side, source.cell, triples.of(k));
            Some(in_cell(source, cell))
        }
    }
}

/// The part that feeds a pin, as that of its triple in domain 0.
pub(crate) fn feeder_of<'s>(
    parts: &'s Parts<'_>,
    triples: &PartTriples,
    side: &'s Side,
    feed: Option<SourceId>,
) -> Option<Source<'s>>
    ensures { triples.now ≡ numbers_of side.now (sources_of parts.now) → option_map (λ s. s.part) result ≡ first_of side.now (sources_of parts.now) feed }
{
    match feed {
        None => None,
        Some(k) => first_part(parts, triples, side, k),
    }
}
