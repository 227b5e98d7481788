//! Wires as keys of an ordered set.

ghost use Rattle.std.specs.Prelude.{◌≡◌, option_map};
ghost use Rattle.fabric.specs.TileWires.{named_wire};
ghost use Rattle.fabric.specs.WireNames.{Named};
ghost use Rattle.wire_names.specs.LentNames.{wire_name};
ghost use Rattle.device_wires.specs.Keys.{wire_of};

use wire_names::WireName;

/// A wire, in wire order: local wires before wide ones, local ones by row, column and base, wide ones by base.
#[derive(Clone, Copy, Debug, PartialEq, Eq, PartialOrd, Ord)]
pub(crate) enum WireKey<'a> {
    Local { row: i32, col: i32, base: &'a [u8] },
    Wide { base: &'a [u8] },
}

/// The key of a wire; none where the name is ignored.
pub(crate) fn key_of<'a>(wire: &WireName<'a>) -> Option<WireKey<'a>>
    ensures { option_map wire_of result ≡ named_wire (wire_name wire.now) }
{
    match *wire {
        WireName::Local { row, col, base } => Some(WireKey::Local { row, col, base }),
        WireName::Wide { base } => Some(WireKey::Wide { base }),
        WireName::Ignored => None,
    }
}

/// The wire of a key.
pub(crate) fn name_of<'a>(key: &WireKey<'a>) -> WireName<'a>
    ensures { wire_name result ≡ Named (wire_of key.now) }
{
    match *key {
        WireKey::Local { row, col, base } => WireName::Local { row, col, base },
        WireKey::Wide { base } => WireName::Wide { base },
    }
}
