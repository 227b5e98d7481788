//! The tables of a triple.

ghost use Rattle.std.specs.Prelude.{IfOk};
ghost use Rattle.words.specs.Members.{In};
ghost use Rattle.circuit.specs.Circuits.{Circuit};
ghost use Rattle.circuit.specs.Parts.{Table, sources as sources_of};
ghost use Rattle.part_copies.specs.Numbered.{AreCopyNumbers};
ghost use Rattle.copy_checks.specs.Given.{IsOf};
ghost use Rattle.copy_checks.specs.Unlike.{IsAnswer};

use crate::design::Design;
use crate::unlike::{Unlike, unlike_of};
use cell_parts::PartKind;
use part_copies::CopyNumbers;
use side_file::Triple;
use std::alloc::{AllocError, Global};
use table_copies::tables_differ;

/// Whether the copies of a table differ.
pub(crate) fn table_unlike<'a>(
    alloc: Global,
    design: &Design<'_, '_>,
    triple: &'a Triple,
    number: u32,
    copies: &CopyNumbers,
) -> Result<Option<Unlike<'a>>, AllocError>
    ensures { IfOk result (λ r. (c : Circuit) → IsOf c design.now → In c.side.triples triple.now → AreCopyNumbers (sources_of design.now.parts.now) triple.now (Table number) copies.now
        → IsAnswer c triple.now (Table number) r) }
{
    let told = tables_differ(
        alloc,
        design.parts,
        design.feeds,
        design.triples,
        design.read,
        design.side,
        copies,
    )?;
    match told {
        None => Ok(None),
        Some(what) => Ok(Some(unlike_of(triple, PartKind::Table(number), what))),
    }
}
