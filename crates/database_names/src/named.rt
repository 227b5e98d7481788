//! Records that a name tells apart.

ghost use Rattle.std.specs.Prelude.{◌≡◌, ℕ, List};

use bits_db::{Arc, EnumOption, EnumSetting, Mux, WordSetting};
use rr_ids::Name;

/// A record with the name by which it is looked up.
pub(crate) trait Named {
    /// The bytes of the name.
    ghost named: { Self → List ℕ };

    fn name(&self) -> &Name
        ensures { result.now ≡ named self.now };
}

impl Named for Mux {
    ghost named = { λ m. m.sink };

    fn name(&self) -> &Name {
        &self.sink
    }
}

impl Named for Arc {
    ghost named = { λ a. a.source };

    fn name(&self) -> &Name {
        &self.source
    }
}

impl Named for WordSetting {
    ghost named = { λ w. w.name };

    fn name(&self) -> &Name {
        &self.name
    }
}

impl Named for EnumSetting {
    ghost named = { λ e. e.name };

    fn name(&self) -> &Name {
        &self.name
    }
}

impl Named for EnumOption {
    ghost named = { λ o. o.value };

    fn name(&self) -> &Name {
        &self.value
    }
}
