//! The tables and registers of triples.

ghost use Rattle.std.specs.Prelude.{◌≡◌, IfOk, IsTrue, None, length, ◌↔◌};
ghost use Rattle.words.specs.Members.{In};
ghost use Rattle.circuit.specs.Circuits.{Circuit};
ghost use Rattle.circuit.specs.Parts.{sources as sources_of};
ghost use Rattle.part_copies.specs.Numbered.{AreCopyNumbers};
ghost use Rattle.copy_checks.specs.Given.{IsOf};
ghost use Rattle.copy_checks.specs.Unlike.{IsAnswer, WithKind, WithPart, WithTriple, WithTriples, kind_at};

use crate::design::Design;
use crate::numbered::{Numbered, part_at};
use crate::registers::register_unlike;
use crate::tables::table_unlike;
use crate::unlike::{Unlike, lesser};
use part_copies::CopyNumbers;
use side_file::Triple;
use std::alloc::{AllocError, Global};

// Whether the copies of a table or a register differ.
fn part_unlike<'a>(
    alloc: Global,
    design: &Design<'_, '_>,
    triple: &'a Triple,
    which: Numbered,
    number: u32,
    copies: &CopyNumbers,
) -> Result<Option<Unlike<'a>>, AllocError>
    ensures { IfOk result (λ r. (c : Circuit) → IsOf c design.now → In c.side.triples triple.now → AreCopyNumbers (sources_of design.now.parts.now) triple.now (kind_at which number) copies.now
        → IsAnswer c triple.now (kind_at which number) r) }
{
    match which {
        Numbered::Tables => table_unlike(alloc, design, triple, number, copies),
        Numbered::Registers => register_unlike(alloc, design, triple, number, copies),
    }
}

// The least part so far, where the copies of a table or a register are looked at too.
fn with_part<'a>(
    alloc: Global,
    design: &Design<'_, '_>,
    triple: &'a Triple,
    which: Numbered,
    number: u32,
    copies: &CopyNumbers,
    least: Option<Unlike<'a>>,
) -> Result<Option<Unlike<'a>>, AllocError>
    ensures { IfOk result (λ r. (c : Circuit) → IsOf c design.now → In c.side.triples triple.now → AreCopyNumbers (sources_of design.now.parts.now) triple.now (kind_at which number) copies.now
        → WithPart c triple.now (kind_at which number) least.entry r) }
{
    match part_unlike(alloc, design, triple, which, number, copies)? {
        None => Ok(least),
        Some(next) => Ok(Some(lesser(least, next))),
    }
}

// Whether no cell of a triple has the part.
fn are_absent(copies: &CopyNumbers) -> bool
    ensures { IsTrue result ↔ ((copies.now.first ≡ None) × ((copies.now.second ≡ None) × (copies.now.third ≡ None))) }
{
    copies.first.is_none() && copies.second.is_none() && copies.third.is_none()
}

// The least part so far, where the tables or the registers of a triple are looked at too.
fn with_kind<'a>(
    alloc: Global,
    design: &Design<'_, '_>,
    triple: &'a Triple,
    which: Numbered,
    least: Option<Unlike<'a>>,
) -> Result<Option<Unlike<'a>>, AllocError>
    ensures { IfOk result (λ r. (c : Circuit) → IsOf c design.now → In c.side.triples triple.now → WithKind c triple.now which least.entry r) }
{
    let mut found = least;
    for number in 0..design.parts.sources().len() {
        let copies = design.numbers.copies(triple, part_at(which, number as u32));
        if are_absent(&copies) {
            return Ok(found);
        }
        found = with_part(alloc, design, triple, which, number as u32, &copies, found)?;
    }
    Ok(found)
}

// The least part so far, where the tables and the registers of a triple are looked at too.
fn with_triple<'a>(
    alloc: Global,
    design: &Design<'_, '_>,
    triple: &'a Triple,
    least: Option<Unlike<'a>>,
) -> Result<Option<Unlike<'a>>, AllocError>
    ensures { IfOk result (λ r. (c : Circuit) → IsOf c design.now → In c.side.triples triple.now → WithTriple c triple.now least.entry r) }
{
    let found = with_kind(alloc, design, triple, Numbered::Tables, least)?;
    with_kind(alloc, design, triple, Numbered::Registers, found)
}

/// The least part of the triples of slices whose copies differ.
pub(crate) fn with_triples<'a>(
    alloc: Global,
    design: &Design<'_, '_>,
    triples: &'a [Triple],
) -> Result<Option<Unlike<'a>>, AllocError>
    ensures { IfOk result (λ r. (c : Circuit) → IsOf c design.now → c.side.triples ≡ triples.now → WithTriples c triples.now (length triples.now) None r) }
{
    let mut found = None;
    for triple in triples {
        found = with_triple(alloc, design, triple, found)?;
    }
    Ok(found)
}
