//! The quantities that have a limit.

use std::fmt;

/// A counted quantity that has a limit. It prints as its name in lower-case letters, as `pattern`.
#[derive(Clone, Copy, Debug, PartialEq, Eq)]
pub enum Limit {
    Tiles,
    Types,
    Place,
    Pattern,
    Slices,
    Pads,
    Parts,
    Wires,
    Muxes,
    Arcs,
}

impl Limit {
    ghost use Rattle.std.specs.Prelude.{◌≡◌};
    ghost use Rattle.records.specs.Limits.{limit_name};
    ghost use Rattle.rr_ids.specs.Limits.{limit_of};

    /// The printed form.
    pub fn text(self) -> &'static str
        ensures { result.now ≡ limit_name (limit_of self) }
    {
        match self {
            Limit::Tiles => "tiles",
            Limit::Types => "types",
            Limit::Place => "place",
            Limit::Pattern => "pattern",
            Limit::Slices => "slices",
            Limit::Pads => "pads",
            Limit::Parts => "parts",
            Limit::Wires => "wires",
            Limit::Muxes => "muxes",
            Limit::Arcs => "arcs",
        }
    }
}

impl fmt::Display for Limit {
    ghost use Rattle.std.specs.Prelude.{Some};
    ghost use Rattle.records.specs.Limits.{limit_name};
    ghost use Rattle.rr_ids.specs.Limits.{limit_of};

    ghost output = { λ l. Some (limit_name (limit_of l)) };

    fn fmt<W: fmt::Write>(&self, f: &mut fmt::Formatter<W>) -> fmt::Result {
        f.write_str(self.text())
    }
}
