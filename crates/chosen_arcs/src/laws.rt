//! A law of places in lists, the contract of a function with an empty body.

ghost use Rattle.std.specs.Prelude.{◌≡◌, ◌↔◌, ℕ, List, Bool, true, Some, slice_get};
ghost use Rattle.std.specs.Ordering.{nat_cmp};
ghost use Rattle.words.specs.Members.{In};
ghost use Rattle.fabric.specs.InOrder.{IsRising};
ghost use Rattle.chosen_arcs.specs.Places.{places_where};

/// The places where a test passes are in order, and they are those of all elements that pass.
pub fn places_are_in_order<X>()
    ensures order { (test : X → Bool) (xs : List X) → IsRising nat_cmp (places_where test 0 xs) }
    ensures members { (test : X → Bool) (xs : List X) (k : ℕ)
        → In (places_where test 0 xs) k ↔ ((x : X) × ((slice_get xs k ≡ Some x) × (test x ≡ true))) }
{}
