//! Wires in order.

ghost use Rattle.std.specs.Ordering.{nat_cmp};
ghost use Rattle.fabric.specs.InOrder.{InOrderOnce};

use rr_ids::WireId;

/// Wires in order, each once.
pub(crate) fn in_order(mut wires: Vec<WireId>) -> Vec<WireId>
    ensures { InOrderOnce nat_cmp wires.items result.items }
{
    wires.sort_unstable();
    wires.dedup();
    wires
}
