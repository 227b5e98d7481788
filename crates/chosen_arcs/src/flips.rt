//! Arcs that conduct after flips.

ghost use Rattle.std.specs.Prelude.{◌≡◌, ◌<◌, ◌^◌, length, true, IfOk, if◌then◌else◌};
ghost use Rattle.patterns.specs.Bits.{bits_of_list, device_bit as device_bit_of, flipped};
ghost use Rattle.patterns.specs.Fits.{present as present_of};
ghost use Rattle.records.specs.Database.{Arc as Record};
ghost use Rattle.records.specs.Grid.{origin_of};
ghost use Rattle.cram_image.specs.Image.{bits};
ghost use Rattle.chosen_arcs.specs.Places.{places_where};

use bits_db::Arc;
use cram_image::Image;
use rr_ids::DeviceBit;
use std::alloc::{AllocError, Global};
use text_cut::PatternBit;
use tile_grid::Tile;

// The device bit of a pattern's bit.
fn device_bit(tile: &Tile, p: &PatternBit) -> DeviceBit
    ensures { result ≡ device_bit_of (origin_of tile.now) p.now }
{
    DeviceBit {
        frame: tile.start_frame + u32::from(p.frame),
        bit: tile.start_bit + u32::from(p.bit),
    }
}

// Whether a bit is among those of a list.
fn is_among(flips: &[DeviceBit], b: DeviceBit) -> bool
    ensures { result ≡ bits_of_list flips.now b }
{
    flips
        .iter()
        .any(|flip| b.frame == flip.frame && b.bit == flip.bit)
}

// Whether a bit is 1 once the bits of a list are flipped.
fn get_flipped(image: &Image, flips: &[DeviceBit], b: DeviceBit) -> bool
    ensures { result ≡ flipped (bits_of_list flips.now) (bits image.now) b }
{
    let there = image.get(b);
    if is_among(flips, b) { !there } else { there }
}

// Whether a pattern is present once the bits of a list are flipped.
fn is_present(image: &Image, flips: &[DeviceBit], tile: &Tile, pattern: &[PatternBit]) -> bool
    ensures { result ≡ present_of (flipped (bits_of_list flips.now) (bits image.now)) (origin_of tile.now) pattern.now }
{
    pattern.iter().all(|p| !p.set || get_flipped(image, flips, device_bit(tile, p)))
}

/// The places, in order, of the arcs of a mux that are present at the tile once each bit of `flips` is flipped. Each bit of a
/// pattern is looked for among the flips, which are few.
pub fn conducting(
    alloc: Global,
    image: &Image,
    flips: &[DeviceBit],
    tile: &Tile,
    arcs: &[Arc],
) -> Result<Vec<u32>, AllocError>
    requires few { length arcs.now < 2 ^ 32 }
    ensures { IfOk result (λ places. places.items
        ≡ places_where (λ (a : Record). present_of (flipped (bits_of_list flips.now) (bits image.now)) (origin_of tile.now) a.bits) 0 arcs.now) }
{
    let mut places = Vec::new(alloc);
    for (place, arc) in arcs.iter().enumerate() {
        if is_present(image, flips, tile, arc.bits.as_slice()) {
            places.push(place as u32)?;
        }
    }
    Ok(places)
}
