//! The sections of a reading.

ghost use Rattle.std.specs.Prelude.{◌≡◌, ◌∷◌, ◌++◌, ◌==◌, [], true, map, IfOk, OnOk};
ghost use Rattle.words.specs.OrMemory.{OrMemory};
ghost use Rattle.texts.specs.Names.{is_name};
ghost use Rattle.config_grammar.specs.ConfigLines.{bits_of_digits};
ghost use Rattle.config_grammar.specs.Sections.{no_lines};
ghost use Rattle.config_grammar.specs.ConfigText.{bad_if, is_none_yet, tile_fault};
ghost use Rattle.config_text.specs.Faults.{fault_of};
ghost use Rattle.config_text.specs.Sayings.{in_tile_view, AreNamesInTile};
ghost use Rattle.config_text.specs.LineByLine.{line_behind, or_fault, with_last};
ghost use Rattle.config_text.specs.Known.{KnowsItsTiles, NoTileTwice};

use super::says::InTile;
use super::{ArcLine, ConfigError, EnumLine, TileText, UnknownLine, WordLine};
use rr_ids::{Limit, List, Name};
use std::alloc::{AllocError, Global};
use text_cut::KnownNames;

// The most sections.
const MOST_SECTIONS: usize = 65_536;

/// The sections that were read so far, of which the last may get more lines. Contracts see the fields, since the known
/// tiles are in step with the list only until an error, behind which the sections are not used.
#[derive(Drop)]
pub(crate) struct Sections<'a> {
    alloc: Global,
    sections: List<TileText>,
    tiles: KnownNames<'a>,
}

// Whether each digit is a one.
fn ones_of(alloc: Global, digits: &[u8]) -> Result<Vec<bool>, AllocError>
    ensures { IfOk result (λ ones. ones.items ≡ map (λ d. d == 49) digits.now) }
{
    digits.iter().map(|d| *d == b'1').collect(alloc)
}

// The bits of digits, the last digit first.
fn bits_of(alloc: Global, digits: &[u8]) -> Result<List<bool>, AllocError>
    ensures { IfOk result (λ bits. bits ≡ bits_of_digits digits.now) }
{
    let mut bits = ones_of(alloc, digits)?;
    bits.reverse();
    Ok(List::from_vec(bits))
}

// A section of no lines.
fn empty_section(alloc: Global, number: u32, tile: &[u8]) -> Result<TileText, AllocError>
    requires { is_name tile.now ≡ true }
    ensures { IfOk result (λ section. section ≡ no_lines number tile.now) }
{
    Ok(TileText {
        tile: Name::of_bytes(alloc, tile)?,
        line: number,
        arcs: List::new(alloc),
        words: List::new(alloc),
        enums: List::new(alloc),
        unknowns: List::new(alloc),
    })
}

// Adds a line behind the others of a section.
fn add_line_to(
    section: &mut TileText,
    alloc: Global,
    number: u32,
    line: InTile<'_>,
) -> Result<(), AllocError>
    requires { AreNamesInTile line }
    ensures { OnOk result (section.new ≡ line_behind number (in_tile_view line.entry) section.old) }
{
    match line {
        InTile::Arc(sink, source) => {
            let sink = Name::of_bytes(alloc, sink)?;
            let source = Name::of_bytes(alloc, source)?;
            section.arcs.push(ArcLine {
                sink,
                source,
                line: number,
            })
        }
        InTile::Word(name, digits) => {
            let name = Name::of_bytes(alloc, name)?;
            let bits = bits_of(alloc, digits)?;
            section.words.push(WordLine {
                name,
                bits,
                line: number,
            })
        }
        InTile::Enum(name, value) => {
            let name = Name::of_bytes(alloc, name)?;
            let value = Name::of_bytes(alloc, value)?;
            section.enums.push(EnumLine {
                name,
                value,
                line: number,
            })
        }
        InTile::Unknown(frame, bit) => section.unknowns.push(UnknownLine {
            frame,
            bit,
            line: number,
        }),
    }
}

impl<'a> Sections<'a> {
    /// No section was read yet.
    pub(crate) fn new(alloc: Global) -> Sections<'a>
        ensures none { result.sections ≡ [] }
        ensures known { KnowsItsTiles result }
    {
        Sections {
            alloc,
            sections: List::new(alloc),
            tiles: KnownNames::new(alloc),
        }
    }

    /// The sections that were read.
    pub(crate) fn into_list(self) -> List<TileText>
        ensures { result ≡ self.entry.sections }
    {
        let Sections { sections, .. } = self;
        sections
    }

    /// Begins the section of another tile.
    pub(crate) fn add_tile(&mut self, number: u32, tile: &'a [u8]) -> Result<(), ConfigError>
        requires name { is_name tile.now ≡ true }
        requires known { KnowsItsTiles self.old }
        ensures sections { OrMemory (λ _. self.new.sections) fault_of result
            (or_fault (tile_fault number self.old.sections tile.now) (self.old.sections ++ no_lines number tile.now ∷ [])) }
        ensures known { OnOk result (KnowsItsTiles self.new) }
    {
        if !self.tiles.insert(tile)? {
            return Err(ConfigError::BadLine(number));
        }
        if self.sections.len() >= MOST_SECTIONS {
            return Err(ConfigError::TooLarge(Limit::Tiles));
        }
        self.sections
            .push(empty_section(self.alloc, number, tile)?)?;
        Ok(())
    }

    /// Adds a line to the last section.
    pub(crate) fn add_line(&mut self, number: u32, line: InTile<'a>) -> Result<(), ConfigError>
        requires names { AreNamesInTile line }
        requires known { KnowsItsTiles self.old }
        ensures sections { OrMemory (λ _. self.new.sections) fault_of result
            (or_fault (bad_if (is_none_yet self.old.sections) number) (with_last (line_behind number (in_tile_view line.entry)) self.old.sections)) }
        ensures known { OnOk result (KnowsItsTiles self.new) }
    {
        let Some(mut section) = self.sections.pop() else {
            return Err(ConfigError::BadLine(number));
        };
        add_line_to(&mut section, self.alloc, number, line)?;
        self.sections.push(section)?;
        Ok(())
    }
}
