//! Copies.

ghost use Rattle.std.specs.Prelude.{◌≡◌, IfOk};

use super::{ArcLine, Config, EnumLine, Head, TileText, UnknownLine, WordLine};
use rr_ids::List;
use std::alloc::{AllocError, Global};

fn copy_heads(alloc: Global, heads: &[Head]) -> Result<List<Head>, AllocError>
    ensures { IfOk result (λ copied. copied ≡ heads.now) }
{
    let mut copied = List::new(alloc);
    for head in heads {
        copied.push(Head {
            text: head.text.copy()?,
        })?;
    }
    Ok(copied)
}

fn copy_arcs(alloc: Global, arcs: &[ArcLine]) -> Result<List<ArcLine>, AllocError>
    ensures { IfOk result (λ copied. copied ≡ arcs.now) }
{
    let mut copied = List::new(alloc);
    for arc in arcs {
        copied.push(ArcLine {
            sink: arc.sink.copy()?,
            source: arc.source.copy()?,
            line: arc.line,
        })?;
    }
    Ok(copied)
}

fn copy_bits(alloc: Global, bits: &[bool]) -> Result<List<bool>, AllocError>
    ensures { IfOk result (λ copied. copied ≡ bits.now) }
{
    Ok(List::from_vec(Vec::from_slice(alloc, bits)?))
}

fn copy_words(alloc: Global, words: &[WordLine]) -> Result<List<WordLine>, AllocError>
    ensures { IfOk result (λ copied. copied ≡ words.now) }
{
    let mut copied = List::new(alloc);
    for word in words {
        copied.push(WordLine {
            name: word.name.copy()?,
            bits: copy_bits(alloc, word.bits.as_slice())?,
            line: word.line,
        })?;
    }
    Ok(copied)
}

fn copy_enums(alloc: Global, enums: &[EnumLine]) -> Result<List<EnumLine>, AllocError>
    ensures { IfOk result (λ copied. copied ≡ enums.now) }
{
    let mut copied = List::new(alloc);
    for line in enums {
        copied.push(EnumLine {
            name: line.name.copy()?,
            value: line.value.copy()?,
            line: line.line,
        })?;
    }
    Ok(copied)
}

fn copy_unknowns(alloc: Global, unknowns: &[UnknownLine]) -> Result<List<UnknownLine>, AllocError>
    ensures { IfOk result (λ copied. copied ≡ unknowns.now) }
{
    Ok(List::from_vec(Vec::from_slice(alloc, unknowns)?))
}

fn copy_section(alloc: Global, section: &TileText) -> Result<TileText, AllocError>
    ensures { IfOk result (λ copied. copied ≡ section.now) }
{
    Ok(TileText {
        tile: section.tile.copy()?,
        line: section.line,
        arcs: copy_arcs(alloc, section.arcs.as_slice())?,
        words: copy_words(alloc, section.words.as_slice())?,
        enums: copy_enums(alloc, section.enums.as_slice())?,
        unknowns: copy_unknowns(alloc, section.unknowns.as_slice())?,
    })
}

fn copy_sections(alloc: Global, sections: &[TileText]) -> Result<List<TileText>, AllocError>
    ensures { IfOk result (λ copied. copied ≡ sections.now) }
{
    let mut copied = List::new(alloc);
    for section in sections {
        copied.push(copy_section(alloc, section)?)?;
    }
    Ok(copied)
}

impl Config {
    /// An equal configuration.
    pub fn copy(&self, alloc: Global) -> Result<Config, AllocError>
        ensures { IfOk result (λ config. config ≡ self.now) }
    {
        Ok(Config {
            device: self.device.copy()?,
            heads: copy_heads(alloc, self.heads.as_slice())?,
            tiles: copy_sections(alloc, self.tiles.as_slice())?,
        })
    }
}
