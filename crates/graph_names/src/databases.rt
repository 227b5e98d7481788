//! What names are looked up in.

ghost use Rattle.fabric.specs.Device.{Device};
ghost use Rattle.record_laws.specs.Records.{db_at};
ghost use Rattle.std.specs.Option.{option_copied};
ghost use Rattle.std.specs.Prelude.{◌≡◌};

use database_names::DatabaseNames;
use rr_ids::TileId;
use wire_names::LentRules;

/// A device that lends the names of the databases of its tiles, which are lent for `'a`, and the rules of names.
pub trait TileDatabases<'a> {
    /// The device.
    ghost device: { Self → Device };

    /// The names of the database of a tile; `None` exactly where there is no such tile or its type has no database.
    fn names(&self, t: TileId) -> Option<&DatabaseNames<'a>>
        ensures { option_copied result ≡ db_at (device self.now) t };

    /// The rules of names.
    fn rules(&self) -> &LentRules<'a>
        ensures { result.now ≡ (device self.now).profile.rules };
}
