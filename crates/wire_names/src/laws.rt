//! Laws of numbers of wires, each the contract of a function with an empty body.

ghost use Rattle.fabric.specs.GraphOf.{number_of};
ghost use Rattle.fabric.specs.Wires.{Wire};
ghost use Rattle.std.specs.Prelude.{◌≡◌, ◌↔◌, ℕ, List, None, Some, slice_get};
ghost use Rattle.words.specs.Members.{In};
ghost use Rattle.words.specs.Twice.{HasNoneTwice};

/// Where each wire stands once, the number of a wire is the place where it stands.
pub fn number_is_place()
    ensures { (wires : List Wire) (wire : Wire) (n : ℕ) → HasNoneTwice wires → (number_of wires wire ≡ Some n) ↔ (slice_get wires n ≡ Some wire) }
{}

/// A wire has no number exactly where it isn't there.
pub fn no_number_is_not_there()
    ensures { (wires : List Wire) (wire : Wire) → (number_of wires wire ≡ None) ↔ (In wires wire → ⊥) }
{}
