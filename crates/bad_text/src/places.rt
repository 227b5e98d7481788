//! Places of domains, as reports name them.

ghost use Rattle.std.specs.Prelude.{◌≡◌, ◌++◌, ◌∷◌, [], OnOk};
ghost use Rattle.bad_text.specs.Lines.{place_view};
ghost use Rattle.reports.specs.ReportTexts.{place_text};
ghost use Rattle.texts.specs.Printing.{spaced};

use report_text::{Wire, push_wire};
use std::alloc::AllocError;

/// A wire, or a cell by its name.
#[derive(Clone, Copy)]
pub enum PlaceName<'a> {
    Wire(Wire<'a>),
    Cell(&'a [u8]),
}

// Adds a space, `@` and the name of a cell.
fn push_cell(text: &mut Vec<u8>, name: &[u8]) -> Result<(), AllocError>
    ensures { OnOk result (text.new.items ≡ text.old.items ++ 32 ∷ 64 ∷ name.now) }
{
    text.extend_from_slice(b" @")?;
    text.extend_from_slice(name)?;
    Ok(())
}

/// Adds a space and a place.
pub(crate) fn push_place(text: &mut Vec<u8>, place: PlaceName<'_>) -> Result<(), AllocError>
    ensures { OnOk result (text.new.items ≡ text.old.items ++ spaced (place_text (place_view place.entry) ∷ [])) }
{
    match place {
        PlaceName::Wire(wire) => push_wire(text, wire),
        PlaceName::Cell(name) => push_cell(text, name),
    }
}
