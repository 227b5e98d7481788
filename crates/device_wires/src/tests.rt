use crate::{Databases, Device, Wires, wires_of};
use cell_profile::Profile;
use rr_ids::{Id, Name, NameError, Rules, TileId, WireId};
use std::alloc::Global;
use std::test::Fail;
use tile_grid::{Grid, Tile};
use wire_names::WireName;

const GRID: &str = r#"{
"R1C1:MLC": {"cols": 11, "rows": 8, "sites": [], "start_bit": 8, "start_frame": 16, "type": "MLC"},
"R0C1:MIO": {"cols": 2, "rows": 8, "sites": [], "start_bit": 0, "start_frame": 16, "type": "MIO"}
}"#;

// The second mux and the fixed connection have an end on another chip.
const MIO: &str = "\
.mux S1_H0
W1_X F0B0
G_CK F0B1
.mux 25K_Z
Y F1B0
.fixed_conn K 25K_L
";

const MLC: &str = "\
.mux H0
N1_PI F0B0
25K_Q F0B1
.fixed_conn V F
";

const PROFILE: &str =
    r#"{"chip_prefix": "", "other_chips": ["25K_"], "wide": ["G_"], "joins": [["MLC", "T", "G_T"], ["MCK", "J", "H"]],
"slices": [{"tile": "MLC", "name": "S0", "shape": "L", "settings": ["S0.K"], "require": [],
 "tables": [{"word": "S0.K", "pins": ["A", "B"], "out": "F"}],
 "registers": [{"data": ["", [["", "=F"]]], "enable": ["", [["", "1"]]],
   "reset": ["", [["", "0"]]], "set": ["", [["", "0"]]],
   "clock": ["", [["", "=CK"]]], "out": "Q"}]}],
"pads": [{"tile": "MIO", "name": "P0", "settings": ["P0.DIR"],
 "mode": ["P0.DIR", [["NONE", "off"], ["INPUT", "in"], ["OUTPUT", "out"]]], "in": "PI", "out": "PO"}]}"#;

// The texts and tables, of which a proof needs nothing.
fn grid_text() -> &'static [u8] {
    GRID.as_bytes()
}

fn profile_text() -> &'static [u8] {
    PROFILE.as_bytes()
}

// A number, a row and a column where the wire is a local one, and a base.
type Row = (u32, Option<(i32, i32)>, &'static [u8]);

// The wires of the device in wire order.
static WANTED: [Row; 13] = [
    (0, Some((0, 0)), b"X"),
    (1, Some((0, 1)), b"PI"),
    (2, Some((0, 1)), b"PO"),
    (3, Some((1, 1)), b"A"),
    (4, Some((1, 1)), b"B"),
    (5, Some((1, 1)), b"CK"),
    (6, Some((1, 1)), b"F"),
    (7, Some((1, 1)), b"H0"),
    (8, Some((1, 1)), b"Q"),
    (9, Some((1, 1)), b"T"),
    (10, Some((1, 1)), b"V"),
    (11, None, b"G_CK"),
    (12, None, b"G_T"),
];

fn wanted() -> &'static [Row] {
    &WANTED
}

// A name in the tile of type MLC, and the number of its wire.
type Number = (&'static [u8], Option<u32>);

static NUMBERS: [Number; 4] = [
    (b"N1_PI", Some(1)),
    (b"G_T", Some(12)),
    (b"25K_Q", None),
    (b"PI", None),
];

fn numbers() -> &'static [Number] {
    &NUMBERS
}

fn wire_at(place: Option<(i32, i32)>, base: &'static [u8]) -> WireName<'static> {
    match place {
        Some((row, col)) => WireName::Local { row, col, base },
        None => WireName::Wide { base },
    }
}

// Whether each wire stands under its number, and is found there.
fn stand_in_order(wires: &Wires) -> bool {
    for &(number, place, base) in wanted() {
        let wire = wire_at(place, base);
        let id = WireId::from_u32(number);
        if wires.find(&wire) != Some(id) || wires.name(id) != Some(wire) {
            return false;
        }
    }
    true
}

// Whether names in a tile have their numbers.
fn have_numbers(
    alloc: Global,
    wires: &Wires,
    rules: &Rules,
    tile: &Tile,
) -> Result<bool, NameError> {
    for &(text, number) in numbers() {
        let name = Name::new(alloc, text)?;
        if wires.number_in(rules, tile, &name).map(Id::to_u32) != number {
            return Ok(false);
        }
    }
    Ok(true)
}

// Makes the database that a text is that of a type.
fn add(databases: &mut Databases, alloc: Global, kind: &[u8], text: &str) -> Result<(), Fail> {
    let kind = Name::new(alloc, kind)?;
    let db = bits_db::read(alloc, text.as_bytes())?;
    databases.insert(kind, db)?;
    Ok(())
}

// The databases of both types, of which one is replaced.
fn databases(alloc: Global) -> Result<Databases, Fail> {
    let mut databases = Databases::new(alloc);
    add(&mut databases, alloc, b"MLC", MIO)?;
    add(&mut databases, alloc, b"MIO", MIO)?;
    add(&mut databases, alloc, b"MLC", MLC)?;
    Ok(databases)
}

// Whether the wires of a device of these parts are the wanted ones.
fn are_wanted(
    alloc: Global,
    grid: &Grid,
    databases: &Databases,
    profile: &Profile,
) -> Result<bool, Fail> {
    let device = Device {
        grid,
        databases,
        profile,
    };
    let wires = wires_of(alloc, &device)?;
    let tile = grid.tiles.get(TileId::from_u32(1)).ok_or("a tile")?;
    Ok(
        wires.len() == 13
            && stand_in_order(&wires)
            && have_numbers(alloc, &wires, &profile.rules, tile)?,
    )
}

fn grid(alloc: Global) -> Result<Grid, Fail> {
    Ok(tile_grid::read(alloc, grid_text())?)
}

fn profile(alloc: Global) -> Result<Profile, Fail> {
    Ok(cell_profile::read(alloc, profile_text())?)
}

#[test]
fn wires_come_in_order(rt: HostRuntime) -> Result<(), Fail> {
    let alloc = rt.alloc();
    let grid = grid(alloc)?;
    let databases = databases(alloc)?;
    let profile = profile(alloc)?;
    assert!(rt; are_wanted(alloc, &grid, &databases, &profile)?);
    Ok(())
}
