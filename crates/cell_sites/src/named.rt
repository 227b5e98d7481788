//! Records that names tell apart.

ghost use Rattle.std.specs.Prelude.{◌≡◌, ℕ, List};

use cell_profile::{PadKind, SliceKind};
use rr_ids::Name;
use side_file::Placed;

/// A record with a name.
pub trait Named {
    /// The bytes of the name.
    ghost named: { Self → List ℕ };

    fn name(&self) -> &Name
        ensures { result.now ≡ named self.now };
}

impl Named for Placed {
    ghost named = { λ p. p.name };

    fn name(&self) -> &Name {
        &self.name
    }
}

impl Named for PadKind {
    ghost named = { λ k. k.name };

    fn name(&self) -> &Name {
        &self.name
    }
}

/// A record that two names tell apart: a kind by its type of tile and its name, a placed cell by its tile and its kind.
pub trait Paired {
    /// The bytes of the first name.
    ghost first: { Self → List ℕ };

    /// The bytes of the second name.
    ghost second: { Self → List ℕ };

    fn first(&self) -> &Name
        ensures { result.now ≡ first self.now };

    fn second(&self) -> &Name
        ensures { result.now ≡ second self.now };
}

impl Paired for SliceKind {
    ghost first = { λ k. k.tile };

    ghost second = { λ k. k.name };

    fn first(&self) -> &Name {
        &self.tile
    }

    fn second(&self) -> &Name {
        &self.name
    }
}

impl Paired for PadKind {
    ghost first = { λ k. k.tile };

    ghost second = { λ k. k.name };

    fn first(&self) -> &Name {
        &self.tile
    }

    fn second(&self) -> &Name {
        &self.name
    }
}

impl Paired for Placed {
    ghost first = { λ p. p.tile };

    ghost second = { λ p. p.kind };

    fn first(&self) -> &Name {
        &self.tile
    }

    fn second(&self) -> &Name {
        &self.kind
    }
}
