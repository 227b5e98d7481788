//! The fixed connections and cell outputs of all tiles.

ghost use Rattle.std.specs.Prelude.{◌≡◌, ◌<◌, ◌++◌, IfOk, OnOk, Some, length, option_map, slice_get};
ghost use Rattle.fabric.specs.GraphOf.{fixed_of, outputs_of};
ghost use Rattle.tile_parts.specs.Slots.{wire_at};
ghost use Rattle.tile_types.specs.Types.{type_in};
ghost use Rattle.fixed_links.specs.Slots.{links_in, outputs_in, type_links};
ghost use Rattle.fixed_links.specs.Tiles.{fixed_of_tile, links_of_types, outputs_of_tile};

use crate::shapes::{KnownTypes, known_type};
use crate::slots::{TypeLinks, add_links, add_outputs};
use device_numbers::DeviceNumbers;
use link_order::Link;
use name_numbers::NameNumbers;
use rr_ids::{Id, TileId, WireId};
use std::alloc::{AllocError, Global};
use tile_grid::Tile;
use tile_types::TileType;

/// The fixed connections and joins of the tiles of a device, and its cell outputs, tile by tile.
#[derive(Drop)]
pub struct TileLinks {
    pub fixed: Vec<Link>,
    pub outputs: Vec<WireId>,
}

// The tile of a number.
fn tile_of<'a>(numbers: &DeviceNumbers<'a>, tile: TileId) -> &'a Tile
    requires { tile < length numbers.now.device.grid.tiles }
    ensures { slice_get numbers.now.device.grid.tiles tile ≡ Some result.now }
{
    let device = numbers.device();
    let grid = device.grid;
    &grid.tiles.as_slice()[tile.to_u32() as usize]
}

// The type of the tile of a number.
fn type_of<'n, 'a>(numbers: &'n DeviceNumbers<'a>, tile: TileId) -> &'n TileType<'a>
    requires { tile < length numbers.now.device.grid.tiles }
    ensures { Some result.now ≡ option_map (type_in numbers.now.device) (slice_get numbers.now.device.grid.tiles tile) }
{
    numbers.types().of_tile(tile).unwrap()
}

// Adds the links and outputs of a tile, by its row of wires.
fn add_type_links(
    links: &mut TileLinks,
    row: &[Option<WireId>],
    kind: &TypeLinks,
) -> Result<(), AllocError>
    ensures fixed { OnOk result (links.new.fixed.items ≡ links.old.fixed.items ++ links_in row.now kind.now.fixed) }
    ensures outputs { OnOk result (links.new.outputs.items ≡ links.old.outputs.items ++ outputs_in row.now kind.now.outputs) }
{
    add_links(&mut links.fixed, row, kind.fixed.as_slice())?;
    add_outputs(&mut links.outputs, row, kind.outputs.as_slice())
}

// The links by slots of a number.
fn links_at(links: &[TypeLinks], number: u32) -> &TypeLinks
    requires { number < length links.now }
    ensures { slice_get links.now number ≡ Some result.now }
{
    &links[number as usize]
}

// Adds the links and outputs of the tile of a number.
fn add_tile<'a>(
    alloc: Global,
    numbers: &DeviceNumbers<'a>,
    known: &mut KnownTypes<'a>,
    links: &mut TileLinks,
    number: TileId,
) -> Result<(), AllocError>
    requires known { known.old.links.items ≡ links_of_types numbers.now.device known.old.kinds }
    requires tile { number < length numbers.now.device.grid.tiles }
    ensures known { OnOk result (known.new.links.items ≡ links_of_types numbers.now.device known.new.kinds) }
    ensures fixed { OnOk result (links.new.fixed.items ≡ links.old.fixed.items ++ fixed_of_tile numbers.now number) }
    ensures outputs { OnOk result (links.new.outputs.items ≡ links.old.outputs.items ++ outputs_of_tile numbers.now number) }
{
    let tile = tile_of(numbers, number);
    let kind = type_of(numbers, number);
    let place = known_type(alloc, numbers.device(), known, tile, kind)?;
    let kind = links_at(&known.links, place);
    add_type_links(links, numbers.row(number), kind)
}

/// The fixed connections and joins of a device, and its cell outputs, by tile, then in file order; the names of each tile
/// type are looked up once.
#[tactic(auto, using(crate::proofs::Tiles::one_tile_more, crate::proofs::Tiles::one_outputs_more, crate::proofs::Tiles::none_left, crate::proofs::Tiles::no_outputs_left))]
pub fn links_of(alloc: Global, numbers: &DeviceNumbers<'_>) -> Result<TileLinks, AllocError>
    ensures fixed { IfOk result (λ links. links.fixed.items ≡ fixed_of numbers.now.device numbers.now.wires) }
    ensures outputs { IfOk result (λ links. links.outputs.items ≡ outputs_of numbers.now.device numbers.now.wires) }
{
    let mut known = KnownTypes {
        kinds: NameNumbers::new(alloc),
        links: Vec::new(alloc),
    };
    let mut links = TileLinks {
        fixed: Vec::new(alloc),
        outputs: Vec::new(alloc),
    };
    for number in 0..numbers.tiles() {
        add_tile(
            alloc,
            numbers,
            &mut known,
            &mut links,
            TileId::from_u32(number),
        )?;
    }
    Ok(links)
}
