//! Numbers of several kinds. One kind isn't another: code that mixes them doesn't compile. Contracts see each as
//! its number.

ghost use Rattle.std.specs.Prelude.{◌≡◌, ℕ, ◌<◌, ◌^◌};

use std::marker::{Model, PhantomData};

/// A number of one kind.
pub trait Id: Copy {
    /// The number that contracts see.
    ghost number: { Self → ℕ };

    /// What a number below 2 ^ 32 stands for.
    ghost id_of: { ℕ → Self };

    /// The number of this kind with this value.
    fn from_u32(n: u32) -> Self
        ensures { result ≡ id_of n };

    /// The value of the number.
    fn to_u32(self) -> u32
        ensures { result ≡ number self };

    /// The way to a number of the kind and back gives the value.
    ghost value_returns: { (n : ℕ) → n < 2 ^ 32 → number (id_of n) ≡ n };

    /// The way to the value and back gives the number of the kind.
    ghost id_returns: { (id : Self) → id_of (number id) ≡ id };
}

/// A number of the kind that `K` marks. Numbers of two kinds are of two types.
#[derive_where(Clone, Copy, Debug, PartialEq, Eq, PartialOrd, Ord, Hash)]
pub struct Number<K> {
    value: u32,
    kind: PhantomData<K>,
}

impl<K> Model for Number<K> {
    ghost use Rattle.std.specs.Prelude.{ℕ};
    ghost use Rattle.std.specs.Coded.{coded_ℕ};

    ghost Value = { ℕ };

    ghost coded = { coded_ℕ };

    ghost view = { λ id. id.value };

    ghost inverse = { λ n. record { value = n; kind = record {} } };
}

impl<K> Id for Number<K> {
    ghost use Rattle.std.specs.Prelude.{refl};

    ghost number = { λ id. id };

    ghost id_of = { λ n. n };

    ghost value_returns = { λ _ _. refl };

    ghost id_returns = { λ _. refl };

    fn from_u32(n: u32) -> Number<K> {
        Number {
            value: n,
            kind: PhantomData,
        }
    }

    fn to_u32(self) -> u32 {
        self.value
    }
}

/// Marks the numbers of wires.
pub struct OfWire;

/// Marks the numbers of routing muxes.
pub struct OfMux;

/// Marks the numbers of arcs.
pub struct OfArc;

/// Marks the numbers of tiles.
pub struct OfTile;

/// The number of a wire of a graph.
pub type WireId = Number<OfWire>;

/// The number of a routing mux of a graph.
pub type MuxId = Number<OfMux>;

/// The number of an arc of a graph.
pub type ArcId = Number<OfArc>;

/// The number of a tile of a grid.
pub type TileId = Number<OfTile>;
