//! Whether two parts are copies of each other.

ghost use Rattle.std.specs.Prelude.{◌≡◌, ◌↔◌, IsTrue, slice_get};
ghost use Rattle.std.specs.Option.{option_copied};
ghost use Rattle.part_triples.specs.Numbers.{AreCopies, SameCells, numbers_of};
ghost use Rattle.records.specs.Side.{Side as SideRecord};

use crate::CellTripleId;
use crate::part_numbers::number_at;
use cell_parts::Source;
use circuit_parts::SourceId;
use rr_ids::Id;

// Whether two cells stand in one triple, by the numbers of their triples; a cell that stands in none is alone.
#[tactic(auto, using(crate::proofs::Told::names_same))]
fn same_cells(
    a: &Source<'_>,
    b: &Source<'_>,
    first: Option<CellTripleId>,
    second: Option<CellTripleId>,
) -> bool
    ensures { IsTrue result ↔ SameCells first second a.now.part.cell b.now.part.cell }
{
    match first {
        Some(m) => match second {
            Some(n) => m.to_u32() == n.to_u32(),
            None => false,
        },
        None => match second {
            Some(_) => false,
            None => a.cell == b.cell,
        },
    }
}

// Whether two parts are of one kind and number.
fn same_kind(a: &Source<'_>, b: &Source<'_>) -> bool
    ensures { IsTrue result ↔ (a.now.part.part ≡ b.now.part.part) }
{
    a.part == b.part
}

// Whether two parts are of one kind and number, in cells of one triple.
fn same_source(
    a: &Source<'_>,
    b: &Source<'_>,
    first: Option<CellTripleId>,
    second: Option<CellTripleId>,
) -> bool
    ensures { IsTrue result ↔ ((a.now.part.part ≡ b.now.part.part) × SameCells first second a.now.part.cell b.now.part.cell) }
{
    if !same_kind(a, b) {
        return false;
    }
    same_cells(a, b, first, second)
}

// The part with a number.
fn source_at<'s, 'a>(sources: &'s [Source<'a>], k: SourceId) -> Option<&'s Source<'a>>
    ensures { option_copied result ≡ slice_get sources.now k }
{
    sources.get(k.to_u32() as usize)
}

/// Whether two parts are there and have one triple, by the numbers of the triples of all.
pub(crate) fn same_parts(
    sources: &[Source<'_>],
    numbers: &[Option<CellTripleId>],
    a: SourceId,
    b: SourceId,
) -> bool
    ensures { (side : SideRecord) → numbers.now ≡ numbers_of side sources.now → IsTrue result ↔ AreCopies side sources.now a b }
{
    match source_at(sources, a) {
        None => false,
        Some(first) => match source_at(sources, b) {
            None => false,
            Some(second) => {
                let (m, n) = (number_at(numbers, a), number_at(numbers, b));
                same_source(first, second, m, n)
            }
        },
    }
}
