//! The databases of tile types.

ghost use Rattle.std.specs.Prelude.{◌≡◌, ◌≢◌, ℕ, [], List, Some, option_map, OnErr, OnOk};
ghost use Rattle.std.specs.Option.{option_copied};
ghost use Rattle.device_names.specs.Types.{type_named, AreInNameOrder};

use bits_db::TileDb;
use rr_ids::Name;
use std::alloc::{AllocError, Global};
use std::collections::BTreeMap;
use std::marker::Model;

/// The databases of tile types by the types' names. Contracts see their list in byte order of names, each name once.
#[derive(Drop)]
pub struct Databases {
    by_type: BTreeMap<Name, TileDb>,
}

impl Model for Databases {
    ghost use Rattle.std.specs.Prelude.{List, map};
    ghost use Rattle.fabric.specs.Device.{TypeDb};
    ghost use Rattle.device_names.specs.Types.{type_db, AreInNameOrder};

    ghost Value = { List TypeDb };

    ghost view = { λ d. map type_db d.by_type.entries };

    ghost invariant = { λ d. AreInNameOrder (map type_db d.by_type.entries) };
}

impl Databases {
    /// No databases; takes no memory yet.
    pub fn new(alloc: Global) -> Databases
        ensures { result ≡ [] }
    {
        Databases {
            by_type: BTreeMap::new(alloc),
        }
    }

    /// Makes a database that of the type of a name, in the place of another one where there was one. An `Err` changes
    /// nothing.
    pub fn insert(&mut self, kind: Name, db: TileDb) -> Result<(), AllocError>
        ensures there { OnOk result (type_named self.new kind ≡ Some (record { kind = kind; db = db })) }
        ensures others { OnOk result ((other : List ℕ) → other ≢ kind → type_named self.new other ≡ type_named self.old other) }
        ensures order { AreInNameOrder self.new }
        ensures err { OnErr result (self.new ≡ self.old) }
    {
        self.by_type.insert(kind, db)?;
        Ok(())
    }

    /// The database of the type of a name; `None` exactly where there is none.
    pub fn get(&self, kind: &Name) -> Option<&TileDb>
        ensures { option_copied result ≡ option_map (λ t. t.db) (type_named self.now kind.now) }
    {
        self.by_type.get(kind)
    }
}
