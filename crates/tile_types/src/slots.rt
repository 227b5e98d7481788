//! Names that are read once for all places.

ghost use Rattle.std.specs.Prelude.{◌≡◌, ℕ, map, IfOk};
ghost use Rattle.std.specs.List.{AllZip};
ghost use Rattle.fabric.specs.WireOfName.{wire_of_name};
ghost use Rattle.wire_names.specs.Kept.{IsShortOrIgnored};
ghost use Rattle.wire_names.specs.Slots.{slot_at};
ghost use Rattle.tile_types.specs.Slots.{IsSlotOf};

use rr_ids::Name;
use std::alloc::{AllocError, Global};
use wire_names::{LentRules, Slot};

// The slot of a name.
fn slot_of<'a>(rules: &LentRules<'_>, name: &'a Name) -> Slot<'a>
    ensures stands { (row column : ℕ) → slot_at (row, column) result ≡ wire_of_name (row, column) name.now rules.now }
    ensures short { (row column : ℕ) → IsShortOrIgnored (slot_at (row, column) result) }
{
    rules.slot(name.bytes())
}

/// The slots of names, in their order.
pub(crate) fn slots_of<'a>(
    alloc: Global,
    rules: &LentRules<'_>,
    names: &[&'a Name],
) -> Result<Vec<Slot<'a>>, AllocError>
    ensures { IfOk result (λ slots. AllZip (IsSlotOf rules.now) (map (λ name. name.now) names.now) slots.items) }
{
    let mut slots = Vec::with_capacity(alloc, names.len())?;
    for name in names {
        slots.push(slot_of(rules, name))?;
    }
    Ok(slots)
}
