//! The wire that a name stands for.

ghost use Rattle.std.specs.Prelude.{◌≡◌, ◌<◌, ◌≤◌, length};
ghost use Rattle.fabric.specs.WireNames.{IsWireName};
ghost use Rattle.fabric.specs.WireOfName.{begins_with_one as begins_with_one_of, without_chip as without_chip_of, wire_of_name};
ghost use Rattle.wire_names.specs.Kept.{IsShortOrIgnored};
ghost use Rattle.wire_names.specs.LentNames.{wire_name};

use crate::relative::Relative;
use crate::slot::Slot;
use fabric_laws::each_name_has_one_wire;
use rr_ids::{List, Name, Rules};

/// What a name stands for at a tile's place.
#[derive(Clone, Copy, Debug, PartialEq, Eq)]
pub enum WireName<'a> {
    /// A wire of a row and a column, which may lie outside the grid. Its base is its name without a place.
    Local { row: i32, col: i32, base: &'a [u8] },
    /// A wire of the whole device.
    Wide { base: &'a [u8] },
    /// The name of a wire of another chip, which is no wire here.
    Ignored,
}

/// What a name stands for at a tile's place; takes no memory. It passes over the prefixes: for many names, or prefixes
/// of a file, `LentRules` looks them up.
pub fn place<'a>(row: u8, col: u8, name: &'a [u8], rules: &Rules) -> WireName<'a>
    ensures computed { wire_name result ≡ wire_of_name (row, col) name.now rules.now }
    ensures stands { IsWireName (row, col) name.now rules.now (wire_name result) }

    // So what a name of 1 to 255 bytes stands for can be kept, unless it is ignored.
    ensures short { 0 < length name.now → length name.now ≤ 255 → IsShortOrIgnored (wire_name result) }
{
    each_name_has_one_wire();
    if begins_with_one(&rules.other_chips, name) {
        return WireName::Ignored;
    }
    let relative = Relative::read(without_chip(&rules.chip_prefix, name));
    let is_wide = begins_with_one(&rules.wide, relative.base);
    Slot::of(relative, is_wide).at(row, col)
}

// Whether a name begins with one of the prefixes.
fn begins_with_one(prefixes: &List<Name>, name: &[u8]) -> bool
    ensures { result ≡ begins_with_one_of prefixes.now name.now }
{
    prefixes
        .as_slice()
        .iter()
        .any(|prefix| name.starts_with(prefix.bytes()))
}

/// The name without the chip's prefix, where more stands behind it.
pub(crate) fn without_chip<'a>(chip: &Option<Name>, name: &'a [u8]) -> &'a [u8]
    ensures rest { result.now ≡ without_chip_of chip.now name.now }
    ensures some { 0 < length name.now → 0 < length result.now }
    ensures shorter { length result.now ≤ length name.now }
{
    let Some(prefix) = chip else {
        return name;
    };
    let prefix = prefix.bytes();
    if name.starts_with(prefix) && prefix.len() < name.len() {
        let (_, rest) = name.split_at(prefix.len());
        return rest;
    }
    name
}
