//! Muxes and enums with the names of their arcs and options.

ghost use Rattle.std.specs.Prelude.{◌≡◌, IfOk, map};
ghost use Rattle.std.specs.Option.{option_copied};
ghost use Rattle.fabric.specs.Settings.{option_of};
ghost use Rattle.database_names.specs.Places.{named_in, place_in};

use crate::places::{Places, find, place_of, places_of};
use bits_db::{Arc, EnumOption, EnumSetting, Mux};
use rr_ids::Name;
use std::alloc::{AllocError, Global};
use std::marker::Model;

/// A mux that is lent, and the places of its sources. Contracts see the record of the mux.
#[derive(Drop)]
pub(crate) struct MuxNames<'a> {
    mux: &'a Mux,
    sources: Places<'a>,
}

impl<'a> Model for MuxNames<'a> {
    ghost use Rattle.std.specs.Prelude.{map};
    ghost use Rattle.records.specs.Database.{Mux as Record};
    ghost use Rattle.database_names.specs.Places.{HoldsPlaces};

    ghost Value = { Record };

    ghost view = { λ m. m.mux.now };

    ghost invariant = { λ m. HoldsPlaces (map (λ a. a.source) m.mux.now.arcs) m.sources };
}

impl<'a> MuxNames<'a> {
    /// The names of a mux.
    pub(crate) fn new(alloc: Global, mux: &'a Mux) -> Result<MuxNames<'a>, AllocError>
        ensures { IfOk result (λ names. names ≡ mux.now) }
    {
        let sources = places_of(alloc, mux.arcs.as_slice())?;
        Ok(MuxNames { mux, sources })
    }

    /// The arc from a source.
    pub(crate) fn arc(&self, source: &Name) -> Option<&'a Arc>
        ensures { option_copied result ≡ named_in (λ a. a.source) self.now.arcs source.now }
    {
        let mux = self.mux;
        find(mux.arcs.as_slice(), &self.sources, source)
    }

    /// The place of the first arc from a source.
    pub(crate) fn place(&self, source: &Name) -> Option<usize>
        ensures { result ≡ place_in (map (λ a. a.source) self.now.arcs) source.now }
    {
        place_of(&self.sources, source)
    }
}

/// An enum that is lent, and the places of its values. Contracts see the record of the enum.
#[derive(Drop)]
pub(crate) struct EnumNames<'a> {
    setting: &'a EnumSetting,
    values: Places<'a>,
}

impl<'a> Model for EnumNames<'a> {
    ghost use Rattle.std.specs.Prelude.{map};
    ghost use Rattle.records.specs.Database.{EnumSetting as Record};
    ghost use Rattle.database_names.specs.Places.{HoldsPlaces};

    ghost Value = { Record };

    ghost view = { λ e. e.setting.now };

    ghost invariant = { λ e. HoldsPlaces (map (λ o. o.value) e.setting.now.options) e.values };
}

impl<'a> EnumNames<'a> {
    /// The names of an enum.
    pub(crate) fn new(alloc: Global, setting: &'a EnumSetting) -> Result<EnumNames<'a>, AllocError>
        ensures { IfOk result (λ names. names ≡ setting.now) }
    {
        let values = places_of(alloc, setting.options.as_slice())?;
        Ok(EnumNames { setting, values })
    }

    /// The option of a value.
    pub(crate) fn option(&self, value: &Name) -> Option<&'a EnumOption>
        ensures { option_copied result ≡ option_of self.now value.now }
    {
        let setting = self.setting;
        find(setting.options.as_slice(), &self.values, value)
    }
}
