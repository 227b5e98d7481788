//! The databases of tile types, each read once.

ghost use Rattle.std.specs.Prelude.{◌≡◌, ◌∷◌, [], ◌++◌, map, IfOk, OnOk};
ghost use Rattle.design_files.specs.Designs as designs;
ghost use Rattle.design_files.specs.Names as names;
ghost use Rattle.design_reader.specs.Answers.{Gives};
ghost use Rattle.design_reader.specs.Errors.{ReadCounts};
ghost use Rattle.design_reader.specs.Forms.{AreReadDatabases};
ghost use Rattle.design_reader.specs.Reached.{IsDatabaseReached};
ghost use Rattle.fabric.specs.InOrder.{IsRising};
ghost use Rattle.fabric.specs.Wires.{name_cmp};

use crate::FileError;
use crate::files::read_database;
use crate::types::types_of;
use bits_db::TileDb;
use device_names::Databases;
use outside::Files;
use rr_ids::Name;
use std::alloc::{AllocError, Global};
use tile_grid::Grid;

// Adds the database of a type that comes after all those so far.
fn add(databases: &mut Databases, kind: &Name, database: TileDb) -> Result<(), AllocError>
    requires { IsRising name_cmp (map (λ t. t.kind) databases.old ++ kind.now ∷ []) }
    ensures { OnOk result (databases.new ≡ databases.old ++ record { kind = kind.now; db = database } ∷ []) }
{
    let name = kind.copy()?;
    databases.insert(name, database)
}

// The databases of types in order, one after the other.
fn read_each<F: Files>(
    alloc: Global,
    files: &mut F,
    family: &str,
    kinds: &[&Name],
) -> Result<Databases, FileError>
    requires { IsRising name_cmp (map (λ kind. kind.now) kinds.now) }
    ensures told { F.told files.old → F.told files.new }
    ensures content { F.file files.new ≡ F.file files.old }
    ensures answer { F.told files.old → let names = map (λ kind. kind.now) kinds.now in
        Gives (λ databases. databases) (designs.databases_in (F.file files.old) family.now names) (IsDatabaseReached (F.file files.old) family.now names) result }
    ensures form { IfOk result AreReadDatabases }
    ensures reads { ReadCounts result (F.read_faults files.old) (F.read_faults files.new) }
    ensures writes { F.write_faults files.new ≡ F.write_faults files.old }
{
    let mut databases = Databases::new(alloc);
    for kind in kinds {
        let database = read_database(alloc, files, family, kind)?;
        add(&mut databases, kind, database)?;
    }
    Ok(databases)
}

/// The databases of the types of a grid, in byte order of the types.
pub(crate) fn read_databases<F: Files>(
    alloc: Global,
    files: &mut F,
    family: &str,
    grid: &Grid,
) -> Result<Databases, FileError>
    ensures told { F.told files.old → F.told files.new }
    ensures content { F.file files.new ≡ F.file files.old }
    ensures answer { F.told files.old → let kinds = names.types_of grid.now in
        Gives (λ databases. databases) (designs.databases_in (F.file files.old) family.now kinds) (IsDatabaseReached (F.file files.old) family.now kinds) result }
    ensures form { IfOk result AreReadDatabases }
    ensures reads { ReadCounts result (F.read_faults files.old) (F.read_faults files.new) }
    ensures writes { F.write_faults files.new ≡ F.write_faults files.old }
{
    let kinds = types_of(alloc, grid.tiles.as_slice())?;
    read_each(alloc, files, family, kinds.as_slice())
}
