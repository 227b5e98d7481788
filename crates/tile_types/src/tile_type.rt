//! Types of tiles.

ghost use Rattle.std.specs.Prelude.{◌≡◌, ◌<◌, ◌^◌, length, map, IfOk};
ghost use Rattle.std.specs.List.{AllZip};
ghost use Rattle.std.specs.Option.{option_copied};
ghost use Rattle.name_numbers.specs.Numbers.{number_of};
ghost use Rattle.tile_types.specs.Slots.{IsSlotOf};
ghost use Rattle.tile_types.specs.Types.{type_in};

use crate::SlotId;
use crate::slots::slots_of;
use bits_db::TileDb;
use device_names::{Device, names_in};
use name_numbers::NameNumbers;
use rr_ids::{Id, Name, Rules};
use std::alloc::{AllocError, Global};
use std::marker::Model;
use tile_grid::Tile;
use wire_names::{LentRules, Slot};

/// What the tiles of a type share: its database, where it has one, and the names that count in its tiles, each once, as
/// slots under numbers in order of first use. A slot is a name that was read once for all places. Contracts see the rules
/// of names, the database and the names of the slots.
#[derive(Drop)]
pub struct TileType<'a> {
    rules: &'a Rules,
    db: Option<&'a TileDb>,
    names: NameNumbers<'a>,
    slots: Vec<Slot<'a>>,
}

impl<'a> Model for TileType<'a> {
    ghost use Rattle.std.specs.List.{AllZip};
    ghost use Rattle.std.specs.Option.{option_copied};
    ghost use Rattle.tile_types.specs.Slots.{IsSlotOf, TypeSlots};

    ghost Value = { TypeSlots };

    ghost view = { λ t. record { rules = t.rules.now; db = option_copied t.db; names = t.names } };

    ghost invariant = { λ t. AllZip (IsSlotOf t.rules.now) t.names t.slots.items };
}

impl<'a> TileType<'a> {
    /// The type of a tile.
    pub(crate) fn of(
        alloc: Global,
        device: &Device<'a>,
        rules: &LentRules<'_>,
        tile: &Tile,
    ) -> Result<TileType<'a>, AllocError>
        requires { rules.now ≡ device.now.profile.rules }
        ensures { IfOk result (λ t. t ≡ type_in device.now tile.now) }
    {
        let counted = names_in(alloc, device, tile)?;
        let names = NameNumbers::of(alloc, counted.as_slice())?;
        let slots = slots_of(alloc, rules, names.as_slice())?;
        let databases = device.databases;
        let profile = device.profile;
        Ok(TileType {
            rules: &profile.rules,
            db: databases.get(&tile.kind),
            names,
            slots,
        })
    }

    /// The database of the type; `None` exactly where it has none.
    pub fn database(&self) -> Option<&'a TileDb>
        ensures { option_copied result ≡ self.now.db }
    {
        self.db
    }

    /// The slots in order of their numbers.
    pub fn slots(&self) -> &[Slot<'a>]
        ensures { AllZip (IsSlotOf self.now.rules) self.now.names result.now }
    {
        self.slots.as_slice()
    }

    /// The names of the slots in order of their numbers.
    pub fn names(&self) -> &[&'a Name]
        ensures names { map (λ name. name.now) result.now ≡ self.now.names }
        ensures few { length self.now.names < 2 ^ 32 }
    {
        self.names.as_slice()
    }

    /// The number of the slot of a name; `None` exactly where the name doesn't count in tiles of the type.
    pub fn slot(&self, name: &Name) -> Option<SlotId>
        ensures { result ≡ number_of self.now.names name.now }
    {
        let number = self.names.number(name.bytes())?;
        Some(SlotId::from_u32(number))
    }
}
