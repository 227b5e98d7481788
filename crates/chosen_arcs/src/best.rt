//! Chosen arcs.

ghost use Rattle.std.specs.Prelude.{◌≡◌, ◌<◌, ◌^◌, ◌&&◌, length, nat_le, max, true, IfOk, if◌then◌else◌};
ghost use Rattle.patterns.specs.Fits.{fits as fits_of};
ghost use Rattle.records.specs.Database.{Arc as Record};
ghost use Rattle.records.specs.Grid.{origin_of};
ghost use Rattle.fabric.specs.Chosen.{is_best_fit};
ghost use Rattle.cram_image.specs.Image.{bits};
ghost use Rattle.chosen_arcs.specs.Places.{IsMost, places_where};

use bits_db::Arc;
use cram_image::Image;
use std::alloc::{AllocError, Global};
use tile_grid::Tile;

// Whether an arc fits at a tile.
fn fits_at(image: &Image, tile: &Tile, arc: &Arc) -> bool
    ensures { result ≡ fits_of (bits image.now) (origin_of tile.now) arc.now.bits }
{
    image.fits(arc.bits.as_slice(), tile)
}

// The greater of the number of an arc's bits and another one, if the arc fits, else the other one.
fn longer(fits: bool, arc: &Arc, longest: usize) -> usize
    ensures { result ≡ (if fits then max (length arc.now.bits) longest else longest) }
{
    if fits {
        return arc.bits.len().max(longest);
    }
    longest
}

// The most bits of an arc that fits, or 0 where none does.
fn longest_fit(image: &Image, tile: &Tile, arcs: &[Arc]) -> usize
    ensures { IsMost (λ (a : Record). fits_of (bits image.now) (origin_of tile.now) a.bits) (λ (a : Record). length a.bits) arcs.now result }
{
    let mut longest = 0;
    for arc in arcs {
        longest = longer(fits_at(image, tile, arc), arc, longest);
    }
    longest
}

// Whether an arc fits with at least so many bits.
fn fits_with(image: &Image, tile: &Tile, longest: usize, arc: &Arc) -> bool
    ensures { result ≡ (nat_le longest (length arc.now.bits) && fits_of (bits image.now) (origin_of tile.now) arc.now.bits) }
{
    longest <= arc.bits.len() && fits_at(image, tile, arc)
}

// The places of the arcs that fit with at least so many bits.
fn places_with(
    alloc: Global,
    image: &Image,
    tile: &Tile,
    longest: usize,
    arcs: &[Arc],
) -> Result<Vec<u32>, AllocError>
    requires few { length arcs.now < 2 ^ 32 }
    ensures { IfOk result (λ places. places.items
        ≡ places_where (λ (a : Record). nat_le longest (length a.bits) && fits_of (bits image.now) (origin_of tile.now) a.bits) 0 arcs.now) }
{
    let mut places = Vec::new(alloc);
    for (place, arc) in arcs.iter().enumerate() {
        if fits_with(image, tile, longest, arc) {
            places.push(place as u32)?;
        }
    }
    Ok(places)
}

/// The places, in order, of the arcs of a mux that an image chooses: those that fit at the tile with as many bits as any of
/// the mux that fits.
pub fn chosen(
    alloc: Global,
    image: &Image,
    tile: &Tile,
    arcs: &[Arc],
) -> Result<Vec<u32>, AllocError>
    requires few { length arcs.now < 2 ^ 32 }
    ensures { IfOk result (λ places. places.items
        ≡ places_where (is_best_fit (λ (a : Record). a.bits) (bits image.now) (origin_of tile.now) arcs.now) 0 arcs.now) }
{
    let longest = longest_fit(image, tile, arcs);
    places_with(alloc, image, tile, longest, arcs)
}
