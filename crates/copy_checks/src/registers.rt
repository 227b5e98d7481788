//! The registers of a triple.

ghost use Rattle.std.specs.Prelude.{◌≡◌, ℕ, IfOk, false, get_or};
ghost use Rattle.words.specs.Members.{In};
ghost use Rattle.circuit.specs.Circuits.{Circuit};
ghost use Rattle.circuit.specs.Parts.{Register, sources as sources_of};
ghost use Rattle.copy_rules.specs.Copies.{AreReadCopies};
ghost use Rattle.copy_rules.specs.Fields.{field_of};
ghost use Rattle.design_checks.specs.CopyChecks.{field_text};
ghost use Rattle.part_copies.specs.Numbered.{AreCopyNumbers};
ghost use Rattle.records.specs.Side.{Triple as TripleRecord};
ghost use Rattle.copy_checks.specs.Given.{IsOf};
ghost use Rattle.copy_checks.specs.Listed.{IsKept};
ghost use Rattle.copy_checks.specs.Unlike.{IsAnswer};

use crate::design::Design;
use crate::listed::listed;
use crate::unlike::{Unlike, unlike_of};
use cell_parts::PartKind;
use circuit_parts::SourceId;
use copy_rules::{Field, first_field};
use part_copies::CopyNumbers;
use rr_ids::Id;
use side_file::Triple;
use std::alloc::{AllocError, Global};

// Whether a part is read.
fn is_read(read: &[bool], part: SourceId) -> bool
    ensures { result ≡ get_or read.now part false }
{
    let place = part.to_u32() as usize;
    place < read.len() && read[place]
}

// A part that is there and is read.
fn kept(read: &[bool], part: Option<SourceId>) -> Option<SourceId>
    ensures { IsKept read.now part result }
{
    match part {
        None => None,
        Some(part) => {
            if is_read(read, part) {
                Some(part)
            } else {
                None
            }
        }
    }
}

// The read copies of a register.
fn read_copies(
    alloc: Global,
    design: &Design<'_, '_>,
    copies: &CopyNumbers,
) -> Result<Vec<SourceId>, AllocError>
    ensures { IfOk result (λ list. (c : Circuit) → IsOf c design.now → (t : TripleRecord) (number : ℕ) → AreCopyNumbers (sources_of design.now.parts.now) t (Register number) copies.now
        → AreReadCopies c t number list.items) }
{
    let first = kept(design.read, copies.first);
    let second = kept(design.read, copies.second);
    let third = kept(design.read, copies.third);
    listed(alloc, first, second, third)
}

// The text of a field.
fn text_of(field: Field) -> &'static [u8]
    ensures { result.now ≡ field_text (field_of field) }
{
    match field {
        Field::Set => b"set",
        Field::Data => b"data",
        Field::Enable => b"enable",
        Field::Reset => b"reset",
        Field::Clock => b"clock",
    }
}

/// Whether the copies of a register differ.
pub(crate) fn register_unlike<'a>(
    alloc: Global,
    design: &Design<'_, '_>,
    triple: &'a Triple,
    number: u32,
    copies: &CopyNumbers,
) -> Result<Option<Unlike<'a>>, AllocError>
    ensures { IfOk result (λ r. (c : Circuit) → IsOf c design.now → In c.side.triples triple.now → AreCopyNumbers (sources_of design.now.parts.now) triple.now (Register number) copies.now
        → IsAnswer c triple.now (Register number) r) }
{
    let read = read_copies(alloc, design, copies)?;
    match first_field(design.parts, design.feeds, design.triples, &read) {
        None => Ok(None),
        Some(field) => {
            let what = Vec::from_slice(alloc, text_of(field))?;
            Ok(Some(unlike_of(triple, PartKind::Register(number), what)))
        }
    }
}
