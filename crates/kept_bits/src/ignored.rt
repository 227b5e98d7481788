//! Names that are ignored.

ghost use Rattle.std.specs.Prelude.{◌≡◌};
ghost use Rattle.record_laws.specs.KeptBits.{is_ignored as is_ignored_by};

use rr_ids::Name;
use wire_names::{LentRules, Slot};

/// Whether a name is one of a wire of another chip, which it is at each place or at none; takes no memory.
pub fn is_ignored(rules: &LentRules<'_>, name: &Name) -> bool
    ensures { result ≡ is_ignored_by rules.now name.now }
{
    match rules.slot(name.bytes()) {
        Slot::Ignored => true,
        Slot::Local(_) => false,
        Slot::Wide { base: _ } => false,
    }
}
