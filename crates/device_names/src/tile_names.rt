//! The names that count in a tile.

ghost use Rattle.std.specs.Prelude.{◌≡◌, ◌++◌, IfOk, OnOk};
ghost use Rattle.fabric.specs.Device.{input_names, output_names};
ghost use Rattle.device_names.specs.TileNames.{tile_names, routing_names};

use crate::Device;
use crate::cell_names::{add_pads_inputs, add_pads_outputs, add_slices_inputs, add_slices_outputs};
use crate::names::LentNames;
use crate::routing_names::{add_database, add_joins};
use std::alloc::{AllocError, Global};
use tile_grid::Tile;

// Adds the names of muxes, fixed connections and joins.
fn add_routing<'a>(
    names: &mut LentNames<'a>,
    device: &Device<'a>,
    tile: &Tile,
) -> Result<(), AllocError>
    ensures { OnOk result (names.new ≡ names.old ++ routing_names device.now tile.now) }
{
    let databases = device.databases;
    let profile = device.profile;
    add_database(names, &profile.rules, databases.get(&tile.kind))?;
    add_joins(names, &profile.rules, &tile.kind, profile.joins.as_slice())?;
    Ok(())
}

// Adds the outputs of the kinds at sites of a tile.
fn add_outputs<'a>(
    names: &mut LentNames<'a>,
    device: &Device<'a>,
    tile: &Tile,
) -> Result<(), AllocError>
    ensures { OnOk result (names.new ≡ names.old ++ output_names device.now tile.now) }
{
    let profile = device.profile;
    add_slices_outputs(names, &tile.kind, profile.slices.as_slice())?;
    add_pads_outputs(names, &tile.kind, profile.pads.as_slice())
}

// Adds the inputs of the kinds at sites of a tile.
fn add_inputs<'a>(
    names: &mut LentNames<'a>,
    device: &Device<'a>,
    tile: &Tile,
) -> Result<(), AllocError>
    ensures { OnOk result (names.new ≡ names.old ++ input_names device.now tile.now) }
{
    let profile = device.profile;
    add_slices_inputs(names, &tile.kind, profile.slices.as_slice())?;
    add_pads_inputs(names, &tile.kind, profile.pads.as_slice())
}

/// The names of the outputs of the kinds at sites of a tile, which hang on its type alone.
pub fn outputs_in<'a>(
    alloc: Global,
    device: &Device<'a>,
    tile: &Tile,
) -> Result<LentNames<'a>, AllocError>
    ensures { IfOk result (λ names. names ≡ output_names device.now tile.now) }
{
    let mut names = LentNames::new(alloc);
    add_outputs(&mut names, device, tile)?;
    Ok(names)
}

/// The names that count in a tile, which hang on its type alone.
pub fn names_in<'a>(
    alloc: Global,
    device: &Device<'a>,
    tile: &Tile,
) -> Result<LentNames<'a>, AllocError>
    ensures { IfOk result (λ names. names ≡ tile_names device.now tile.now) }
{
    let mut names = LentNames::new(alloc);
    add_routing(&mut names, device, tile)?;
    add_outputs(&mut names, device, tile)?;
    add_inputs(&mut names, device, tile)?;
    Ok(names)
}
