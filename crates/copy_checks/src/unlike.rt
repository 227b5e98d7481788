//! Parts whose copies differ, and the least of them.

ghost use Rattle.std.specs.Prelude.{◌≡◌};
ghost use Rattle.attempts.specs.PinOrder.{number_of, part_cmp, rank_of};
ghost use Rattle.cell_parts.specs.PartViews.{part_of};
ghost use Rattle.design_checks.specs.CopyChecks.{part_in};
ghost use Rattle.copy_checks.specs.Unlike.{IsLesser, named};

use cell_parts::PartKind;
use rr_ids::Name;
use side_file::Triple;
use std::cmp::Ordering;

/// A part, by the copy of domain 0, whose copies differ, and in what.
#[derive(Drop)]
pub struct Unlike<'a> {
    pub cell: &'a Name,
    pub part: PartKind,
    pub what: Vec<u8>,
}

/// A part of a triple.
pub(crate) fn unlike_of<'a>(triple: &'a Triple, part: PartKind, what: Vec<u8>) -> Unlike<'a>
    ensures named { named result ≡ part_in triple.now.first (part_of part) }
    ensures what { result.what ≡ what }
{
    Unlike {
        cell: &triple.first,
        part,
        what,
    }
}

// The place of a part in its cell: tables come before registers.
fn place_of(part: PartKind) -> (u32, u32)
    ensures { result ≡ (rank_of (part_of part), number_of (part_of part)) }
{
    match part {
        PartKind::Table(number) => (0, number),
        PartKind::Register(number) => (1, number),
        PartKind::Pad => (2, 0),
    }
}

// The order of two parts.
fn compare(a: &Unlike<'_>, b: &Unlike<'_>) -> Ordering
    ensures { result ≡ part_cmp (named a.now) (named b.now) }
{
    let places = place_of(a.part).cmp(&place_of(b.part));
    a.cell.cmp(b.cell).then(places)
}

/// Of the least part so far and the next one the lesser; there may be none so far.
pub(crate) fn lesser<'a>(least: Option<Unlike<'a>>, next: Unlike<'a>) -> Unlike<'a>
    ensures { IsLesser least.entry next.entry result }
{
    match least {
        None => next,
        Some(first) => match compare(&first, &next) {
            Ordering::Greater => next,
            Ordering::Less => first,
            Ordering::Equal => first,
        },
    }
}
