//! The value of an enum.

ghost use Rattle.std.specs.Prelude.{◌≡◌, filter, find, length, map, max, option_map, if◌then◌else◌};
ghost use Rattle.std.specs.Option.{option_copied};
ghost use Rattle.std.specs.Str.{bytes_eq};
ghost use Rattle.patterns.specs.Fits.{fits as fits_of};
ghost use Rattle.records.specs.Database.{EnumOption as Record};
ghost use Rattle.records.specs.Grid.{origin_of};
ghost use Rattle.fabric.specs.Settings.{enum_value as enum_value_of, value_of_tied};
ghost use Rattle.cram_image.specs.Image.{bits};
ghost use Rattle.chosen_arcs.specs.Places.{IsMost};
ghost use Rattle.setting_values.specs.Tied.{fits_with as fits_with_of};

use bits_db::{EnumOption, EnumSetting};
use cram_image::Image;
use rr_ids::Name;
use tile_grid::Tile;

// Whether an option fits at a tile.
fn fits_at(image: &Image, tile: &Tile, option: &EnumOption) -> bool
    ensures { result ≡ fits_of (bits image.now) (origin_of tile.now) option.now.bits }
{
    image.fits(option.bits.as_slice(), tile)
}

// The greater of the number of an option's bits and another one, if the option fits, else the other one.
fn longer(fits: bool, option: &EnumOption, longest: usize) -> usize
    ensures { result ≡ (if fits then max (length option.now.bits) longest else longest) }
{
    if fits {
        return option.bits.len().max(longest);
    }
    longest
}

// The most bits of an option that fits, or 0 where none does.
fn longest_fit(image: &Image, tile: &Tile, options: &[EnumOption]) -> usize
    ensures { IsMost (λ (o : Record). fits_of (bits image.now) (origin_of tile.now) o.bits) (λ (o : Record). length o.bits) options.now result }
{
    let mut longest = 0;
    for option in options {
        longest = longer(fits_at(image, tile, option), option, longest);
    }
    longest
}

// Whether an option fits with at least so many bits.
fn fits_with(image: &Image, tile: &Tile, longest: usize, option: &EnumOption) -> bool
    ensures { result ≡ fits_with_of (bits image.now) (origin_of tile.now) longest option.now }
{
    longest <= option.bits.len() && fits_at(image, tile, option)
}

// How many options fit with at least so many bits.
fn tied_count(image: &Image, tile: &Tile, longest: usize, options: &[EnumOption]) -> usize
    ensures { result ≡ length (filter (fits_with_of (bits image.now) (origin_of tile.now) longest) options.now) }
{
    let mut count = 0;
    for option in options {
        if fits_with(image, tile, longest, option) {
            count += 1;
        }
    }
    count
}

// The first option that fits with at least so many bits.
fn first_tied<'a>(
    image: &Image,
    tile: &Tile,
    longest: usize,
    options: &'a [EnumOption],
) -> Option<&'a EnumOption>
    ensures { option_copied result ≡ find (fits_with_of (bits image.now) (origin_of tile.now) longest) options.now }
{
    for option in options {
        if fits_with(image, tile, longest, option) {
            return Some(option);
        }
    }
    None
}

// Whether the value of an option is a name.
fn has_value(option: &EnumOption, value: &Name) -> bool
    ensures { result ≡ bytes_eq value.now option.now.value }
{
    value.bytes() == option.value.bytes()
}

// The value of the first option with a value among those that fit with at least so many bits.
fn tied_with<'a>(
    image: &Image,
    tile: &Tile,
    longest: usize,
    options: &'a [EnumOption],
    value: &Name,
) -> Option<&'a Name>
    ensures { option_copied result
        ≡ find (bytes_eq value.now) (map (λ (o : Record). o.value) (filter (fits_with_of (bits image.now) (origin_of tile.now) longest) options.now)) }
{
    for option in options {
        if has_value(option, value) && fits_with(image, tile, longest, option) {
            return Some(&option.value);
        }
    }
    None
}

// The value of the first option that fits with at least so many bits.
fn first_value<'a>(
    image: &Image,
    tile: &Tile,
    longest: usize,
    options: &'a [EnumOption],
) -> Option<&'a Name>
    ensures { option_copied result
        ≡ option_map (λ (o : Record). o.value) (find (fits_with_of (bits image.now) (origin_of tile.now) longest) options.now) }
{
    let first = first_tied(image, tile, longest, options)?;
    Some(&first.value)
}

// The value of the options that are tied: the only one's, or the default where it is among them.
fn tied_value<'a>(
    image: &Image,
    tile: &Tile,
    longest: usize,
    options: &'a [EnumOption],
    default: Option<&Name>,
) -> Option<&'a Name>
    ensures { option_copied result
        ≡ value_of_tied (filter (fits_with_of (bits image.now) (origin_of tile.now) longest) options.now) (option_copied default.entry) }
{
    if tied_count(image, tile, longest, options) <= 1 {
        return first_value(image, tile, longest, options);
    }
    match default {
        Some(default) => tied_with(image, tile, longest, options, default),
        None => None,
    }
}

/// The value of an enum at a tile: that of the option that fits with the most bits, and on a tie the default's; `None`
/// exactly where none fits, or the default isn't among those that are tied.
#[tactic(auto, using(crate::proofs::Tied::value_is))]
pub fn enum_value<'a>(image: &Image, tile: &Tile, setting: &'a EnumSetting) -> Option<&'a Name>
    ensures { option_copied result ≡ enum_value_of (bits image.now) (origin_of tile.now) setting.now }
{
    let options = setting.options.as_slice();
    let longest = longest_fit(image, tile, options);
    tied_value(image, tile, longest, options, setting.default.as_ref())
}
