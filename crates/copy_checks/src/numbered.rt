//! The parts of slices.

ghost use Rattle.std.specs.Prelude.{◌≡◌};
ghost use Rattle.cell_parts.specs.PartViews.{part_of};
ghost use Rattle.copy_checks.specs.Unlike.{kind_at};

use cell_parts::PartKind;

/// The parts of a slice that are numbered from 0.
#[derive(Clone, Copy)]
pub(crate) enum Numbered {
    Tables,
    Registers,
}

/// A table or a register by its number.
pub(crate) fn part_at(which: Numbered, number: u32) -> PartKind
    ensures { part_of result ≡ kind_at which number }
{
    match which {
        Numbered::Tables => PartKind::Table(number),
        Numbered::Registers => PartKind::Register(number),
    }
}
