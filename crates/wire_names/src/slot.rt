//! What a name stands for, wherever its tile is.

ghost use Rattle.std.specs.Prelude.{◌≡◌, if◌then◌else◌};
ghost use Rattle.wire_names.specs.LentNames.{wire_name};
ghost use Rattle.wire_names.specs.Slots.{slot_at, slot_if};

use crate::WireName;
use crate::relative::Relative;

/// What a name stands for in a tile that may stand at any place.
#[derive(Clone, Copy, Debug)]
pub enum Slot<'a> {
    /// A wire of a row and a column that are counted from the place.
    Local(Relative<'a>),
    /// A wire of the whole device.
    Wide { base: &'a [u8] },
    /// The name of a wire of another chip, which is no wire here.
    Ignored,
}

impl<'a> Slot<'a> {
    /// That of a base which is or isn't one of the whole device.
    pub(crate) fn of(relative: Relative<'a>, is_wide: bool) -> Slot<'a>
        ensures { result ≡ slot_if is_wide relative.entry }
    {
        if is_wide {
            return Slot::Wide {
                base: relative.base,
            };
        }
        Slot::Local(relative)
    }

    /// What the name stands for in a tile at a place.
    pub fn at(self, row: u8, col: u8) -> WireName<'a>
        ensures { wire_name result ≡ slot_at (row, col) self.entry }
    {
        match self {
            Slot::Local(relative) => WireName::Local {
                row: i32::from(row) + relative.rows,
                col: i32::from(col) + relative.columns,
                base: relative.base,
            },
            Slot::Wide { base } => WireName::Wide { base },
            Slot::Ignored => WireName::Ignored,
        }
    }
}
