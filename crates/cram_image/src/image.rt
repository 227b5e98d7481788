//! Images of the configuration memory.

ghost use Rattle.std.specs.Prelude.{◌≡◌, Bool, true, false, OnOk, OnErr};
ghost use Rattle.patterns.specs.Bits.{DeviceBit as Bit, device_bit as device_bit_of};
ghost use Rattle.patterns.specs.Fits.{fits as fits_of, present as present_of};
ghost use Rattle.patterns.specs.Written.{with_bit};
ghost use Rattle.records.specs.Grid.{origin_of};
ghost use Rattle.cram_image.specs.Image.{bits};

use crate::word::{Words, has_bit, place_of, with_one, with_zero, word_at};
use indexmap::IndexMap;
use rr_ids::DeviceBit;
use std::alloc::{AllocError, Global};
use std::marker::Model;
use text_cut::PatternBit;
use tile_grid::Tile;

/// The set of the device bits that are 1. Contracts see a list of them, and speak of the test of its members, `bits`.
/// A test of a bit is one look-up under a hash; memory grows with the words of 64 bits that were ever set.
#[derive(Drop)]
pub struct Image {
    words: Words,
}

impl Model for Image {
    ghost use Rattle.std.specs.Prelude.{List};
    ghost use Rattle.patterns.specs.Bits.{DeviceBit as Bit};
    ghost use Rattle.cram_image.specs.Words.{bits_of_words, AreApart};

    ghost Value = { List Bit };

    ghost view = { λ i. bits_of_words i.words.entries };

    ghost invariant = { λ i. AreApart i.words.entries };
}

impl Image {
    /// No bits; takes no memory yet.
    pub fn new(alloc: Global) -> Image
        ensures { (b : Bit) → bits result b ≡ false }
    {
        Image {
            words: IndexMap::new(alloc),
        }
    }

    /// Whether a bit is 1.
    pub fn get(&self, b: DeviceBit) -> bool
        ensures { result ≡ bits self.now b }
    {
        has_bit(word_at(&self.words, place_of(b)), b)
    }

    /// Makes a bit 1. An `Err` changes nothing.
    pub fn set(&mut self, b: DeviceBit) -> Result<(), AllocError>
        ensures ok { OnOk result ((c : Bit) → bits self.new c ≡ with_bit (bits self.old) b true c) }
        ensures err { OnErr result (self.new ≡ self.old) }
    {
        let place = place_of(b);
        let word = word_at(&self.words, place);
        self.words.insert(place, with_one(word, b))?;
        Ok(())
    }

    /// Makes a bit 0; takes no memory.
    pub fn clear(&mut self, b: DeviceBit)
        ensures { (c : Bit) → bits self.new c ≡ with_bit (bits self.old) b false c }
    {
        let Some(word) = self.words.get_mut(&place_of(b)) else {
            return;
        };
        *word = with_zero(*word, b);
    }

    /// Whether a pattern fits at a tile: each of its plain bits is 1 and each of its `!` bits 0. Takes no memory.
    pub fn fits(&self, pattern: &[PatternBit], tile: &Tile) -> bool
        ensures { result ≡ fits_of (bits self.now) (origin_of tile.now) pattern.now }
    {
        pattern
            .iter()
            .all(|p| self.get(device_bit(tile, p)) == p.set)
    }

    /// Whether a pattern is present at a tile: each of its plain bits is 1. Takes no memory.
    pub fn present(&self, pattern: &[PatternBit], tile: &Tile) -> bool
        ensures { result ≡ present_of (bits self.now) (origin_of tile.now) pattern.now }
    {
        pattern
            .iter()
            .all(|p| !p.set || self.get(device_bit(tile, p)))
    }
}

// The device bit of a pattern's bit.
fn device_bit(tile: &Tile, p: &PatternBit) -> DeviceBit
    ensures { result ≡ device_bit_of (origin_of tile.now) p.now }
{
    DeviceBit {
        frame: tile.start_frame + u32::from(p.frame),
        bit: tile.start_bit + u32::from(p.bit),
    }
}
