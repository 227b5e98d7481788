//! The records of a text configuration. Contracts see each as the neutral record of its fields.

use rr_ids::{List, Name, Text};
use std::marker::Model;

/// A line with no meaning for the circuit, kept as text: `.comment`, `.sysconfig` or `.variant`, from its first word to
/// the end of its last.
#[derive(Drop)]
pub struct Head {
    pub text: Text,
}

impl Model for Head {
    ghost use Rattle.records.specs.Config as records;

    ghost Value = { records.Head };

    ghost view = { λ h. record { text = h.text } };
}

/// The line of an arc, and its number from 1.
#[derive(Drop)]
pub struct ArcLine {
    pub sink: Name,
    pub source: Name,
    pub line: u32,
}

impl Model for ArcLine {
    ghost use Rattle.records.specs.Config as records;

    ghost Value = { records.ArcLine };

    ghost view = { λ a. record { sink = a.sink; source = a.source; line = a.line } };
}

/// The line of a word, with its bits, the lowest first.
#[derive(Drop)]
pub struct WordLine {
    pub name: Name,
    pub bits: List<bool>,
    pub line: u32,
}

impl Model for WordLine {
    ghost use Rattle.records.specs.Config as records;

    ghost Value = { records.WordLine };

    ghost view = { λ w. record { name = w.name; bits = w.bits; line = w.line } };
}

/// The line of an enum.
#[derive(Drop)]
pub struct EnumLine {
    pub name: Name,
    pub value: Name,
    pub line: u32,
}

impl Model for EnumLine {
    ghost use Rattle.records.specs.Config as records;

    ghost Value = { records.EnumLine };

    ghost view = { λ e. record { name = e.name; value = e.value; line = e.line } };
}

/// A bit of the tile that is set by its place.
#[derive(Clone, Copy, Debug)]
pub struct UnknownLine {
    pub frame: u16,
    pub bit: u16,
    pub line: u32,
}

impl Model for UnknownLine {
    ghost use Rattle.records.specs.Config as records;

    ghost Value = { records.UnknownLine };

    ghost view = { λ u. record { frame = u.frame; bit = u.bit; line = u.line } };

    ghost inverse = { λ u. record { frame = u.frame; bit = u.bit; line = u.line } };
}

/// The section of a tile: the number of its first line, and its lines by kind. Arcs stand in byte order of their
/// lines, each once, and all others in input order.
#[derive(Drop)]
pub struct TileText {
    pub tile: Name,
    pub line: u32,
    pub arcs: List<ArcLine>,
    pub words: List<WordLine>,
    pub enums: List<EnumLine>,
    pub unknowns: List<UnknownLine>,
}

impl Model for TileText {
    ghost use Rattle.records.specs.Config as records;

    ghost Value = { records.TileText };

    ghost view = { λ t. record { tile = t.tile; line = t.line; arcs = t.arcs; words = t.words; enums = t.enums; unknowns = t.unknowns } };
}

/// A text configuration: heads in input order, and sections in byte order of their tiles' names.
#[derive(Drop)]
pub struct Config {
    pub device: Name,
    pub heads: List<Head>,
    pub tiles: List<TileText>,
}

impl Model for Config {
    ghost use Rattle.records.specs.Config as records;

    ghost Value = { records.Config };

    ghost view = { λ c. record { device = c.device; heads = c.heads; tiles = c.tiles } };
}
