//! The bits of a word.

ghost use Rattle.std.specs.Prelude.{◌≡◌, ◌≤◌, ◌<◌, ◌+◌, ◌*◌, ◌∷◌, ◌++◌, [], codes, IfOk, length, map, if◌then◌else◌};
ghost use Rattle.patterns.specs.Fits.{fits};
ghost use Rattle.records.specs.Grid.{origin_of};
ghost use Rattle.fabric.specs.Settings.{word_bits};
ghost use Rattle.circuit.specs.Worlds.{address};
ghost use Rattle.cells.specs.Readings.{digits_of};
ghost use Rattle.cram_image.specs.Image.{bits};

use bits_db::{Pattern, WordSetting};
use cram_image::Image;
use std::alloc::{AllocError, Global};
use tile_grid::Tile;

// The number whose lowest bit is given and whose others are those of another number.
fn with_lowest(bit: bool, above: u16) -> u16
    requires { above < 32768 }
    ensures { result ≡ (if bit then 1 else 0) + 2 * above }
{
    u16::from(bit) + 2 * above
}

// The number whose bits tell which patterns fit at a tile, the first by its lowest bit.
fn number_of(image: &Image, tile: &Tile, patterns: &[Pattern]) -> u16
    requires { length patterns.now ≤ 16 }
    ensures { result ≡ address (map (fits (bits image.now) (origin_of tile.now)) patterns.now) }
{
    let mut number = 0;
    let mut left = patterns.len();
    while left > 0 {
        left -= 1;
        number = with_lowest(image.fits(patterns[left].as_slice(), tile), number);
    }
    number
}

/// The number whose bits are those of a word of at most 16 bits at a tile, the lowest first.
pub fn word_number(image: &Image, tile: &Tile, word: &WordSetting) -> u16
    requires { length word.now.bits ≤ 16 }
    ensures { result ≡ address (word_bits (bits image.now) (origin_of tile.now) word.now) }
{
    number_of(image, tile, word.bits.as_slice())
}

// The digit of a bit.
fn digit(bit: bool) -> u8
    ensures { result ∷ [] ≡ (if bit then codes "1" else codes "0") }
{
    if bit { b'1' } else { b'0' }
}

/// The bits of a word at a tile as digits, the highest first.
pub fn word_digits(
    alloc: Global,
    image: &Image,
    tile: &Tile,
    word: &WordSetting,
) -> Result<Vec<u8>, AllocError>
    ensures { IfOk result (λ digits. digits.items ≡ digits_of (word_bits (bits image.now) (origin_of tile.now) word.now)) }
{
    let patterns = word.bits.as_slice();
    let mut digits = Vec::with_capacity(alloc, patterns.len())?;
    let mut left = patterns.len();
    while left > 0 {
        left -= 1;
        digits.push(digit(image.fits(patterns[left].as_slice(), tile)))?;
    }
    Ok(digits)
}
