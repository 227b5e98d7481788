//! Labels of wires.

ghost use Rattle.std.specs.Prelude.{◌≡◌, ◌<◌, ◌+◌, ◌↔◌, IsTrue};
ghost use Rattle.pin_search.specs.Labels.{arcs_end, far, first_in, label_of, weight_in};

use std::marker::Model;

// More than any arc's number and one.
const ARCS_END: u128 = 8_589_934_592;

/// What a list of arcs weighs that leads from a wire on to the pin, and which arc is its first: the lighter label is
/// the less, and of those of one weight the one with the earlier arc. Kept as one number, so that one comparison tells.
#[derive(Clone, Copy, PartialEq, Eq, PartialOrd, Ord, Debug)]
pub struct Label(u128);

impl Model for Label {
    ghost use Rattle.std.specs.Prelude.{ℕ};

    ghost Value = { ℕ };

    ghost view = { λ l. l.0 };

    ghost inverse = { λ n. record { 0 = n } };
}

impl Label {
    /// The label of a wire that no search has come to: greater than any other.
    pub(crate) fn far() -> Label
        ensures { result ≡ far }
    {
        Label(18_446_744_073_709_551_615 * ARCS_END)
    }

    /// The label of the pin: no arc is left.
    pub(crate) fn end() -> Label
        ensures { result ≡ 0 }
    {
        Label(0)
    }

    /// The label of a weight and of the number of the first arc.
    pub(crate) fn new(weight: u64, first: u32) -> Label
        ensures { result ≡ label_of weight (first + 1) }
    {
        Label(u128::from(weight) * ARCS_END + u128::from(first) + 1)
    }

    /// Whether a label is less than another.
    pub(crate) fn is_below(self, other: Label) -> bool
        ensures { IsTrue result ↔ (self < other) }
    {
        self < other
    }

    /// The weight.
    pub(crate) fn weight(self) -> u64
        requires { self < far + arcs_end }
        ensures { result ≡ weight_in self }
    {
        (self.0 / ARCS_END) as u64
    }

    /// The number of the first arc and one, or 0 where no arc is left.
    pub(crate) fn first(self) -> u64
        ensures { result ≡ first_in self }
    {
        (self.0 % ARCS_END) as u64
    }
}
