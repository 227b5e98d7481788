//! The fixed connections and cell outputs of tile types by slots, gathered once for each type.

ghost use Rattle.std.specs.Prelude.{◌≡◌, ◌++◌, [], IfOk, OnOk, Some, filter, map, slice_get};
ghost use Rattle.std.specs.Option.{option_copied, option_map_or};
ghost use Rattle.std.specs.Str.{bytes_eq};
ghost use Rattle.device_names.specs.TileNames.{joined};
ghost use Rattle.fabric.specs.Device.{fixed_at, output_names};
ghost use Rattle.name_numbers.specs.Numbers.{number_of, with_name};
ghost use Rattle.tile_types.specs.Types.{type_in};
ghost use Rattle.fixed_links.specs.Slots.{fixed_slots, type_links};
ghost use Rattle.fixed_links.specs.Tiles.{links_of_types};

use crate::slots::{FixedSlots, TypeLinks};
use bits_db::{Fixed, TileDb};
use cell_profile::Join;
use device_names::{Device, outputs_in};
use name_numbers::NameNumbers;
use rr_ids::Name;
use std::alloc::{AllocError, Global};
use tile_grid::Tile;
use tile_types::{SlotId, TileType};

// A fixed connection by slots.
fn slots_of(kind: &TileType<'_>, sink: &Name, source: &Name) -> FixedSlots
    ensures { result ≡ fixed_slots kind.now.names (record { sink = sink.now; source = source.now }) }
{
    FixedSlots {
        sink: kind.slot(sink),
        source: kind.slot(source),
    }
}

// Adds fixed connections by slots.
fn add_fixed(
    slots: &mut Vec<FixedSlots>,
    kind: &TileType<'_>,
    fixed: &[Fixed],
) -> Result<(), AllocError>
    ensures { OnOk result (slots.new.items ≡ slots.old.items ++ map (fixed_slots kind.now.names) fixed.now) }
{
    for connection in fixed {
        slots.push(slots_of(kind, &connection.sink, &connection.source))?;
    }
    Ok(())
}

// Adds the fixed connections of a database by slots; none where there is no database.
fn add_database(
    slots: &mut Vec<FixedSlots>,
    kind: &TileType<'_>,
    db: Option<&TileDb>,
) -> Result<(), AllocError>
    ensures { OnOk result (slots.new.items ≡ slots.old.items ++ map (fixed_slots kind.now.names) (option_map_or (λ d. d.fixed) (option_copied db.entry) [])) }
{
    match db {
        Some(db) => add_fixed(slots, kind, db.fixed.as_slice()),
        None => Ok(()),
    }
}

// Adds the joins of a tile type by slots.
fn add_joins(
    slots: &mut Vec<FixedSlots>,
    kind: &TileType<'_>,
    name: &Name,
    joins: &[Join],
) -> Result<(), AllocError>
    ensures { OnOk result (slots.new.items ≡ slots.old.items
        ++ map (λ j. fixed_slots kind.now.names (joined j)) (filter (λ j. bytes_eq j.tile name.now) joins.now)) }
{
    for join in joins {
        if join.tile == *name {
            slots.push(slots_of(kind, &join.sink, &join.source))?;
        }
    }
    Ok(())
}

// The fixed connections and joins of the type of a tile by slots.
#[tactic(auto, using(crate::proofs::OfTypes::fixed_made))]
fn fixed_of(
    alloc: Global,
    device: &Device<'_>,
    tile: &Tile,
    kind: &TileType<'_>,
) -> Result<Vec<FixedSlots>, AllocError>
    requires { kind.now ≡ type_in device.now tile.now }
    ensures { IfOk result (λ slots. slots.items ≡ (type_links device.now tile.now).fixed) }
{
    let mut slots = Vec::new(alloc);
    let profile = device.profile;
    add_database(&mut slots, kind, kind.database())?;
    add_joins(&mut slots, kind, &tile.kind, profile.joins.as_slice())?;
    Ok(slots)
}

// The slots of names.
fn slots_of_names(
    alloc: Global,
    kind: &TileType<'_>,
    names: &[&Name],
) -> Result<Vec<Option<SlotId>>, AllocError>
    ensures { IfOk result (λ slots. slots.items ≡ map (λ name. number_of kind.now.names name.now) names.now) }
{
    let mut slots = Vec::with_capacity(alloc, names.len())?;
    for name in names {
        slots.push(kind.slot(name))?;
    }
    Ok(slots)
}

// The cell outputs of the type of a tile by slots.
#[tactic(auto, using(crate::proofs::OfTypes::outputs_made))]
fn outputs_of(
    alloc: Global,
    device: &Device<'_>,
    tile: &Tile,
    kind: &TileType<'_>,
) -> Result<Vec<Option<SlotId>>, AllocError>
    requires { kind.now ≡ type_in device.now tile.now }
    ensures { IfOk result (λ slots. slots.items ≡ (type_links device.now tile.now).outputs) }
{
    let names = outputs_in(alloc, device, tile)?;
    slots_of_names(alloc, kind, names.as_slice())
}

// What the type of a tile has by slots.
fn links_of_type(
    alloc: Global,
    device: &Device<'_>,
    tile: &Tile,
    kind: &TileType<'_>,
) -> Result<TypeLinks, AllocError>
    requires { kind.now ≡ type_in device.now tile.now }
    ensures { IfOk result (λ links. links ≡ type_links device.now tile.now) }
{
    let fixed = fixed_of(alloc, device, tile, kind)?;
    let outputs = outputs_of(alloc, device, tile, kind)?;
    Ok(TypeLinks { fixed, outputs })
}

/// What is known of the types of the tiles so far: their names, and what each has by slots.
#[derive(Drop)]
pub(crate) struct KnownTypes<'a> {
    pub(crate) kinds: NameNumbers<'a>,
    pub(crate) links: Vec<TypeLinks>,
}

/// The number under which the type of a tile is known, which is added where it isn't yet.
pub(crate) fn known_type<'a>(
    alloc: Global,
    device: &Device<'a>,
    known: &mut KnownTypes<'a>,
    tile: &'a Tile,
    kind: &TileType<'_>,
) -> Result<u32, AllocError>
    requires known { known.old.links.items ≡ links_of_types device.now known.old.kinds }
    requires kind { kind.now ≡ type_in device.now tile.now }
    ensures known { OnOk result (known.new.links.items ≡ links_of_types device.now known.new.kinds) }
    ensures links { IfOk result (λ n. slice_get known.new.links.items n ≡ Some (type_links device.now tile.now)) }
{
    if let Some(number) = known.kinds.number(tile.kind.bytes()) {
        return Ok(number);
    }
    let number = known.kinds.add(&tile.kind)?;
    known.links.push(links_of_type(alloc, device, tile, kind)?)?;
    Ok(number)
}
