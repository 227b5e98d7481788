//! One file: its bytes where it is there and short enough, and what they are read as.

ghost use Rattle.std.specs.Prelude.{◌≡◌, IfOk};
ghost use Rattle.answers.specs.Refusals as refusals;
ghost use Rattle.design_files.specs.Designs as designs;
ghost use Rattle.design_files.specs.Names as names;
ghost use Rattle.design_files.specs.Parsed.{parsed, read_grid as read_grid_of};
ghost use Rattle.design_reader.specs.Answers.{bytes_view, Gives, if_there, IsName, NoName, records_there, short_file};
ghost use Rattle.design_reader.specs.Errors.{ReadCounts, Tells};
ghost use Rattle.design_reader.specs.Forms.{IsReadAs};
ghost use Rattle.formed_laws.specs.DatabaseRead.{IsReadDatabase};
ghost use Rattle.formed_laws.specs.Readers.{IsReadGrid};
ghost use Rattle.records.specs.Limits.{most_json_bytes};

use crate::FileError;
use crate::errors::{refused, unread};
use crate::names::{database_name, grid_name};
use crate::readers::{DatabaseFile, FileReader, GridFile};
use bits_db::TileDb;
use outside::{Files, WholeError, read_whole};
use report_text::Refusal;
use rr_ids::{List, Name};
use std::alloc::Global;
use tile_grid::Grid;

/// The most bytes of a configuration.
pub(crate) const MOST_CONFIG_BYTES: u64 = 256 * 1024 * 1024;

/// The most bytes of a grid, a profile and a side file.
pub(crate) const MOST_JSON_BYTES: u64 = 64 * 1024 * 1024;

/// The most bytes of a database.
const MOST_DATABASE_BYTES: u64 = 16 * 1024 * 1024;

// The error of a file that isn't there.
fn missing(alloc: Global, name: &str) -> FileError
    ensures { Tells (refusals.Missing name.now) result }
{
    refused(alloc, Refusal::Missing(name.as_bytes()))
}

// The error of a file that is too long.
fn too_long(alloc: Global, name: &str) -> FileError
    ensures { Tells (refusals.TooLong name.now) result }
{
    refused(alloc, Refusal::TooLong(name.as_bytes()))
}

// The bytes of the file of a name, where it is there and has at most so many.
#[tactic(auto, using(crate::proofs::Refused::tells_counts, crate::proofs::Refused::unread_counts))]
fn bytes_if_there<F: Files>(
    alloc: Global,
    files: &mut F,
    name: &str,
    most: u64,
) -> Result<Option<Vec<u8>>, FileError>
    ensures told { F.told files.old → F.told files.new }
    ensures content { F.file files.new ≡ F.file files.old }
    ensures answer { F.told files.old → Gives bytes_view (short_file name.now most (F.file files.old name.now)) (IsName name.now) result }
    ensures reads { ReadCounts result (F.read_faults files.old) (F.read_faults files.new) }
    ensures writes { F.write_faults files.new ≡ F.write_faults files.old }
{
    match read_whole(alloc, files, name, most) {
        Ok(bytes) => Ok(Some(bytes)),
        Err(WholeError::Missing) => Ok(None),
        Err(WholeError::TooLong) => Err(too_long(alloc, name)),
        Err(WholeError::ReadFault) => Err(unread(alloc, name)),
        Err(WholeError::Memory) => Err(FileError::Memory),
    }
}

// What the bytes of the file of a name are read as, if it is there.
fn read_there<R: FileReader>(
    alloc: Global,
    name: &str,
    there: Option<Vec<u8>>,
) -> Result<R::Value, FileError>
    ensures { Gives (λ value. value) (if_there name.now (R.reads name.now) (bytes_view there)) NoName result }
{
    match there {
        Some(bytes) => R::read(alloc, name.as_bytes(), bytes.as_slice()),
        None => Err(missing(alloc, name)),
    }
}

/// What the file of a name is read as.
#[tactic(auto, using(crate::proofs::Refused::counts_kept))]
pub(crate) fn read_file<R: FileReader, F: Files>(
    alloc: Global,
    files: &mut F,
    name: &str,
    most: u64,
) -> Result<R::Value, FileError>
    ensures told { F.told files.old → F.told files.new }
    ensures content { F.file files.new ≡ F.file files.old }
    ensures answer { F.told files.old → Gives (λ value. value) (parsed name.now most (R.reads name.now) (F.file files.old name.now)) (IsName name.now) result }
    ensures form { IfOk result (IsReadAs (R.reads name.now)) }
    ensures reads { ReadCounts result (F.read_faults files.old) (F.read_faults files.new) }
    ensures writes { F.write_faults files.new ≡ F.write_faults files.old }
{
    match bytes_if_there(alloc, files, name, most) {
        Ok(there) => read_there::<R>(alloc, name, there),
        Err(error) => Err(error),
    }
}

/// The grid of a device in a family's folder.
pub(crate) fn read_grid<F: Files>(
    alloc: Global,
    files: &mut F,
    family: &str,
    device: &Name,
) -> Result<Grid, FileError>
    ensures told { F.told files.old → F.told files.new }
    ensures content { F.file files.new ≡ F.file files.old }
    ensures answer { F.told files.old → let name = names.grid_name family.now device.now in
        Gives (λ grid. grid) (parsed name most_json_bytes (read_grid_of name) (F.file files.old name)) (IsName name) result }
    ensures form { IfOk result IsReadGrid }
    ensures reads { ReadCounts result (F.read_faults files.old) (F.read_faults files.new) }
    ensures writes { F.write_faults files.new ≡ F.write_faults files.old }
{
    let name = grid_name(alloc, family, device)?;
    read_file::<GridFile, F>(alloc, files, name.as_str(), MOST_JSON_BYTES)
}

// A database without records.
fn no_records(alloc: Global) -> TileDb
    ensures { result ≡ designs.no_records }
{
    TileDb {
        muxes: List::new(alloc),
        words: List::new(alloc),
        enums: List::new(alloc),
        fixed: List::new(alloc),
    }
}

// The database that the bytes of the file of a name are read as; there are no records where it isn't there.
fn database_there(alloc: Global, name: &str, there: Option<Vec<u8>>) -> Result<TileDb, FileError>
    ensures { Gives (λ database. database) (records_there name.now (bytes_view there)) NoName result }
{
    match there {
        Some(bytes) => DatabaseFile::read(alloc, name.as_bytes(), bytes.as_slice()),
        None => Ok(no_records(alloc)),
    }
}

// The database in the file of a name.
#[tactic(auto, using(crate::proofs::Refused::counts_kept))]
fn database_in<F: Files>(alloc: Global, files: &mut F, name: &str) -> Result<TileDb, FileError>
    ensures told { F.told files.old → F.told files.new }
    ensures content { F.file files.new ≡ F.file files.old }
    ensures answer { F.told files.old → Gives (λ database. database) (designs.database_in name.now (F.file files.old name.now)) (IsName name.now) result }
    ensures form { IfOk result IsReadDatabase }
    ensures reads { ReadCounts result (F.read_faults files.old) (F.read_faults files.new) }
    ensures writes { F.write_faults files.new ≡ F.write_faults files.old }
{
    match bytes_if_there(alloc, files, name, MOST_DATABASE_BYTES) {
        Ok(there) => database_there(alloc, name, there),
        Err(error) => Err(error),
    }
}

/// The database of a tile type in a family's folder.
pub(crate) fn read_database<F: Files>(
    alloc: Global,
    files: &mut F,
    family: &str,
    kind: &Name,
) -> Result<TileDb, FileError>
    ensures told { F.told files.old → F.told files.new }
    ensures content { F.file files.new ≡ F.file files.old }
    ensures answer { F.told files.old → let name = names.database_name family.now kind.now in
        Gives (λ database. database) (designs.database_in name (F.file files.old name)) (IsName name) result }
    ensures form { IfOk result IsReadDatabase }
    ensures reads { ReadCounts result (F.read_faults files.old) (F.read_faults files.new) }
    ensures writes { F.write_faults files.new ≡ F.write_faults files.old }
{
    let name = database_name(alloc, family, kind)?;
    database_in(alloc, files, name.as_str())
}
