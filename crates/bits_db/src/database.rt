//! The records of a database. Contracts see each as the neutral record of its fields.

use super::Pattern;
use rr_ids::{List, Name};
use std::marker::Model;

/// A programmable connection from a source, made where its bits stand in the image.
#[derive(Drop)]
pub struct Arc {
    pub source: Name,
    pub bits: Pattern,
}

impl Model for Arc {
    ghost use Rattle.records.specs.Database as records;

    ghost Value = { records.Arc };

    ghost view = { λ a. record { source = a.source; bits = a.bits } };
}

/// The arcs that may drive a sink, in file order.
#[derive(Drop)]
pub struct Mux {
    pub sink: Name,
    pub arcs: List<Arc>,
}

impl Model for Mux {
    ghost use Rattle.records.specs.Database as records;

    ghost Value = { records.Mux };

    ghost view = { λ m. record { sink = m.sink; arcs = m.arcs } };
}

/// A word of configuration bits, a pattern for each, the lowest first.
#[derive(Drop)]
pub struct WordSetting {
    pub name: Name,
    pub bits: List<Pattern>,
}

impl Model for WordSetting {
    ghost use Rattle.records.specs.Database as records;

    ghost Value = { records.WordSetting };

    ghost view = { λ w. record { name = w.name; bits = w.bits } };
}

/// A value of an enum, and the bits that stand for it.
#[derive(Drop)]
pub struct EnumOption {
    pub value: Name,
    pub bits: Pattern,
}

impl Model for EnumOption {
    ghost use Rattle.records.specs.Database as records;

    ghost Value = { records.EnumOption };

    ghost view = { λ o. record { value = o.value; bits = o.bits } };
}

/// A setting with named values, in file order.
#[derive(Drop)]
pub struct EnumSetting {
    pub name: Name,
    pub default: Option<Name>,
    pub options: List<EnumOption>,
}

impl Model for EnumSetting {
    ghost use Rattle.records.specs.Database as records;

    ghost Value = { records.EnumSetting };

    ghost view = { λ e. record { name = e.name; default = e.default; options = e.options } };
}

/// A connection that is always there.
#[derive(Drop)]
pub struct Fixed {
    pub sink: Name,
    pub source: Name,
}

impl Model for Fixed {
    ghost use Rattle.records.specs.Database as records;

    ghost Value = { records.Fixed };

    ghost view = { λ f. record { sink = f.sink; source = f.source } };
}

/// What a database says of its tile type, each list in file order.
#[derive(Drop)]
pub struct TileDb {
    pub muxes: List<Mux>,
    pub words: List<WordSetting>,
    pub enums: List<EnumSetting>,
    /// Each connection once.
    pub fixed: List<Fixed>,
}

impl Model for TileDb {
    ghost use Rattle.records.specs.Database as records;

    ghost Value = { records.TileDb };

    ghost view = { λ db. record { muxes = db.muxes; words = db.words; enums = db.enums; fixed = db.fixed } };
}
