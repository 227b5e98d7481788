//! Bits and patterns once the bits of a list are flipped.

ghost use Rattle.std.specs.Prelude.{◌≡◌, if◌then◌else◌};
ghost use Rattle.std.specs.List.{list_any};
ghost use Rattle.patterns.specs.Bits.{bits_of_list, device_bit as device_bit_of, flipped};
ghost use Rattle.patterns.specs.Fits.{present as present_of};
ghost use Rattle.records.specs.Grid.{origin_of};
ghost use Rattle.cram_image.specs.Image.{bits as bits_of};

use cram_image::Image;
use rr_ids::DeviceBit;
use text_cut::PatternBit;
use tile_grid::Tile;

// The device bit of a pattern's bit.
fn device_bit(tile: &Tile, p: &PatternBit) -> DeviceBit
    ensures { result ≡ device_bit_of (origin_of tile.now) p.now }
{
    DeviceBit {
        frame: tile.start_frame + u32::from(p.frame),
        bit: tile.start_bit + u32::from(p.bit),
    }
}

// Whether a bit is among those of a list.
fn is_among(flips: &[DeviceBit], b: DeviceBit) -> bool
    ensures { result ≡ bits_of_list flips.now b }
{
    flips
        .iter()
        .any(|flip| b.frame == flip.frame && b.bit == flip.bit)
}

/// Whether one of some bits is among those of a list.
pub fn is_one_among(flips: &[DeviceBit], bits: &[DeviceBit]) -> bool
    ensures { result ≡ list_any (bits_of_list flips.now) bits.now }
{
    bits.iter().any(|b| is_among(flips, *b))
}

// Whether a bit is 1 once the bits of a list are flipped.
fn get_flipped(image: &Image, flips: &[DeviceBit], b: DeviceBit) -> bool
    ensures { result ≡ flipped (bits_of_list flips.now) (bits_of image.now) b }
{
    let there = image.get(b);
    if is_among(flips, b) { !there } else { there }
}

/// Whether a pattern is present once the bits of a list are flipped. Each bit of it is looked for among the flips, which are few.
pub(crate) fn is_present(
    image: &Image,
    flips: &[DeviceBit],
    tile: &Tile,
    pattern: &[PatternBit],
) -> bool
    ensures { result ≡ present_of (flipped (bits_of_list flips.now) (bits_of image.now)) (origin_of tile.now) pattern.now }
{
    pattern.iter().all(|p| !p.set || get_flipped(image, flips, device_bit(tile, p)))
}
