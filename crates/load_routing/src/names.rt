//! Wires by their names.

ghost use Rattle.std.specs.Prelude.{◌≡◌, None, Some, option_map};
ghost use Rattle.load_routing.specs.Wires.{named_wire};
ghost use Rattle.report_text.specs.Names.{wire_view};
ghost use Rattle.wire_names.specs.LentNames.{wire_name};

use report_text::Wire;
use wire_names::WireName;

/// The wire of a name as reports print it; `None` exactly where the name is ignored.
pub fn wire_or_none(name: WireName<'_>) -> Option<Wire<'_>>
    ensures { option_map wire_view result ≡ named_wire (wire_name name.entry) }
{
    match name {
        WireName::Local { row, col, base } => Some(Wire::Local { row, col, base }),
        WireName::Wide { base } => Some(Wire::Wide { base }),
        WireName::Ignored => None,
    }
}
