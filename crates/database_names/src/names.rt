//! The names in a database.

ghost use Rattle.std.specs.Prelude.{◌≡◌, ◌<◌, IfOk, length, map, option_and_then, slice_get};
ghost use Rattle.std.specs.Option.{option_copied};
ghost use Rattle.fabric.specs.Settings.{option_of};
ghost use Rattle.database_names.specs.Places.{HoldsPlaces, named_in, place_in};

use crate::parts::{EnumNames, MuxNames};
use crate::places::{Places, at, find, place_of, places_of};
use bits_db::{Arc, EnumOption, EnumSetting, Mux, TileDb, WordSetting};
use rr_ids::Name;
use std::alloc::{AllocError, Global};
use std::marker::Model;

/// A database that is lent, and its names in order. Contracts see the record of the database.
#[derive(Drop)]
pub struct DatabaseNames<'a> {
    db: &'a TileDb,
    muxes: Places<'a>,
    each_mux: Vec<MuxNames<'a>>,
    words: Places<'a>,
    enums: Places<'a>,
    each_enum: Vec<EnumNames<'a>>,
}

impl<'a> Model for DatabaseNames<'a> {
    ghost use Rattle.records.specs.Database.{TileDb as Record};
    ghost use Rattle.database_names.specs.Rows.{HoldsNames};

    ghost Value = { Record };

    ghost view = { λ d. d.db.now };

    ghost invariant = { λ d. HoldsNames d.db.now d.muxes d.each_mux.items d.words d.enums d.each_enum.items };
}

// The names of each mux.
fn mux_names<'a>(alloc: Global, muxes: &'a [Mux]) -> Result<Vec<MuxNames<'a>>, AllocError>
    ensures { IfOk result (λ each. each.items ≡ muxes.now) }
{
    let mut each = Vec::with_capacity(alloc, muxes.len())?;
    for mux in muxes {
        each.push(MuxNames::new(alloc, mux)?)?;
    }
    Ok(each)
}

// The names of each enum.
fn enum_names<'a>(alloc: Global, enums: &'a [EnumSetting]) -> Result<Vec<EnumNames<'a>>, AllocError>
    ensures { IfOk result (λ each. each.items ≡ enums.now) }
{
    let mut each = Vec::with_capacity(alloc, enums.len())?;
    for setting in enums {
        each.push(EnumNames::new(alloc, setting)?)?;
    }
    Ok(each)
}

impl<'a> DatabaseNames<'a> {
    /// The names of a database.
    pub fn new(alloc: Global, db: &'a TileDb) -> Result<DatabaseNames<'a>, AllocError>
        ensures { IfOk result (λ names. names ≡ db.now) }
    {
        Ok(DatabaseNames {
            db,
            muxes: places_of(alloc, db.muxes.as_slice())?,
            each_mux: mux_names(alloc, db.muxes.as_slice())?,
            words: places_of(alloc, db.words.as_slice())?,
            enums: places_of(alloc, db.enums.as_slice())?,
            each_enum: enum_names(alloc, db.enums.as_slice())?,
        })
    }

    /// The database.
    pub fn database(&self) -> &'a TileDb
        ensures { result.now ≡ self.now }
    {
        self.db
    }

    /// The place of the mux of a sink in the database; `None` exactly where there is no such mux.
    pub fn mux(&self, sink: &Name) -> Option<usize>
        ensures { result ≡ place_in (map (λ m. m.sink) self.now.muxes) sink.now }
    {
        place_of(&self.muxes, sink)
    }

    /// The arc of the mux at a place from a source; `None` exactly where the mux has no such arc.
    pub fn arc(&self, mux: usize, source: &Name) -> Option<&'a Arc>
        requires { mux < length self.now.muxes }
        ensures { option_copied result ≡ option_and_then (λ m. named_in (λ a. a.source) m.arcs source.now) (slice_get self.now.muxes mux) }
    {
        let found = &self.each_mux[mux];
        found.arc(source)
    }

    /// The place of the first arc of the mux at a place from a source; `None` exactly where the mux has no such arc.
    pub fn arc_place(&self, mux: usize, source: &Name) -> Option<usize>
        requires { mux < length self.now.muxes }
        ensures { result ≡ option_and_then (λ m. place_in (map (λ a. a.source) m.arcs) source.now) (slice_get self.now.muxes mux) }
    {
        let found = &self.each_mux[mux];
        found.place(source)
    }

    /// The word of a name; `None` exactly where there is none.
    pub fn word(&self, name: &Name) -> Option<&'a WordSetting>
        ensures { option_copied result ≡ named_in (λ w. w.name) self.now.words name.now }
    {
        let db = self.db;
        find(db.words.as_slice(), &self.words, name)
    }

    /// The enum of a name; `None` exactly where there is none.
    pub fn enum_setting(&self, name: &Name) -> Option<&'a EnumSetting>
        ensures { option_copied result ≡ named_in (λ e. e.name) self.now.enums name.now }
    {
        let db = self.db;
        find(db.enums.as_slice(), &self.enums, name)
    }

    /// The option of a value of the enum of a name; `None` exactly where there is no such enum or option.
    #[tactic(auto, using(crate::proofs::Adding::found, crate::proofs::Adding::not_found))]
    pub fn option(&self, name: &Name, value: &Name) -> Option<&'a EnumOption>
        ensures { option_copied result ≡ option_and_then (λ enum. option_of enum value.now) (named_in (λ e. e.name) self.now.enums name.now) }
    {
        let found = find_each(&self.each_enum, &self.enums, name)?;
        found.option(value)
    }
}

// The enum of a name, with the names of its options.
#[tactic(auto, using(crate::proofs::Adding::found, crate::proofs::Adding::not_found))]
fn find_each<'a, 'n>(
    each: &'n [EnumNames<'a>],
    enums: &Places<'a>,
    name: &Name,
) -> Option<&'n EnumNames<'a>>
    requires { HoldsPlaces (map (λ e. e.name) each.now) enums.now }
    ensures { option_copied result ≡ named_in (λ e. e.name) each.now name.now }
{
    match place_of(enums, name) {
        Some(place) => at(each, place),
        None => None,
    }
}
