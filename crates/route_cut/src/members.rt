//! Lists of wires in wire order.

ghost use Rattle.std.specs.Prelude.{◌↔◌, ◌≡◌, ◌<◌, length, slice_index, IsTrue, ℕ, IfOk, MatchOption};
ghost use Rattle.std.specs.List.Sorted.{IsStrictlyIncreasing};
ghost use Rattle.words.specs.Members.{In};

use rr_ids::{Id, WireId};

// Whether each wire is below the one behind it.
pub(crate) fn is_rising(wires: &[WireId]) -> bool
    ensures { IsTrue result ↔ IsStrictlyIncreasing wires.now }
{
    for i in 1..wires.len() {
        if wires[i] <= wires[i - 1] {
            return false;
        }
    }
    true
}

// Where a wire stands in a rising list.
pub(crate) fn place_in(wires: &[WireId], w: WireId) -> Option<usize>
    requires { IsStrictlyIncreasing wires.now }
    ensures { MatchOption result (In wires.now w → ⊥) (λ i. (i < length wires.now) × (slice_index wires.now i ≡ w)) }
{
    wires.binary_search(&w).ok()
}

// Whether a wire is in a rising list.
pub(crate) fn is_in(wires: &[WireId], w: WireId) -> bool
    requires { IsStrictlyIncreasing wires.now }
    ensures { IsTrue result ↔ In wires.now w }
{
    place_in(wires, w).is_some()
}

// Whether all wires are below a number.
pub(crate) fn are_below(wires: &[WireId], count: u32) -> bool
    ensures { IsTrue result ↔ ((w : ℕ) → In wires.now w → w < count) }
{
    for w in wires {
        if w.to_u32() >= count {
            return false;
        }
    }
    true
}

// Whether a rising list holds all wires of another.
pub(crate) fn holds_all(wires: &[WireId], others: &[WireId]) -> bool
    requires { IsStrictlyIncreasing wires.now }
    ensures { IsTrue result ↔ ((w : ℕ) → In others.now w → In wires.now w) }
{
    for w in others {
        if !is_in(wires, *w) {
            return false;
        }
    }
    true
}

// Whether a rising list holds no wire of another.
pub(crate) fn holds_none(wires: &[WireId], others: &[WireId]) -> bool
    requires { IsStrictlyIncreasing wires.now }
    ensures { IsTrue result ↔ ((w : ℕ) → In others.now w → In wires.now w → ⊥) }
{
    for w in others {
        if is_in(wires, *w) {
            return false;
        }
    }
    true
}
