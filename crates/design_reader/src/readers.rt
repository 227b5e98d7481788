//! The readers of the files of a design, each with the text of what it refuses.

ghost use Rattle.bits_db.specs.Faults.{fault_of as database_fault_of};
ghost use Rattle.cell_profile.specs.Faults.{fault_of as profile_fault_of};
ghost use Rattle.config_text.specs.Faults.{fault_of as config_fault_of};
ghost use Rattle.design_files.specs.Parsed.{config_refusal, database_refusal, form_refusal, side_refusal};
ghost use Rattle.design_reader.specs.Answers.{Gives, NoName};
ghost use Rattle.design_reader.specs.Errors.{StandsFor};
ghost use Rattle.side_file.specs.Faults.{fault_of as side_fault_of};
ghost use Rattle.std.specs.Prelude.{ℕ, List, Result};
ghost use Rattle.tile_grid.specs.Faults.{fault_of as grid_fault_of};

use crate::FileError;
use crate::errors::refused;
use bits_db::{DbError, TileDb};
use cell_profile::{Profile, ProfileError};
use config_text::{Config, ConfigError};
use report_text::Refusal;
use side_file::{Side, SideError};
use std::alloc::Global;
use tile_grid::{Grid, GridError};

/// A reader of files of one kind.
pub(crate) trait FileReader {
    ghost use Rattle.answers.specs.Refusals.{Refusal as Refused};

    /// What a file is read as.
    type Value;

    /// What the bytes of the file of a name are read as, or their refusal.
    ghost reads: { List ℕ → List ℕ → Result Self.Value Refused };

    /// Reads the bytes of the file of a name.
    fn read(alloc: Global, name: &[u8], bytes: &[u8]) -> Result<Self::Value, FileError>
        ensures { Gives (λ value. value) (reads name.now bytes.now) NoName result };
}

/// The reader of configurations.
pub(crate) struct ConfigFile;

/// The reader of grids.
pub(crate) struct GridFile;

/// The reader of cell profiles.
pub(crate) struct ProfileFile;

/// The reader of side files.
pub(crate) struct SideFile;

/// The reader of databases.
pub(crate) struct DatabaseFile;

fn config_error(alloc: Global, name: &[u8], error: ConfigError) -> FileError
    ensures { StandsFor config_fault_of (config_refusal name.now) error result }
{
    match error {
        ConfigError::BadLine(line) => refused(alloc, Refusal::BadLine(name, line)),
        ConfigError::OutsideBlock(line) => refused(alloc, Refusal::OutsideBlock(name, line)),
        ConfigError::TooLarge(limit) => refused(alloc, Refusal::TooLarge(name, limit)),
        ConfigError::NoDevice => refused(alloc, Refusal::NoDevice(name)),
        ConfigError::Memory => FileError::Memory,
    }
}

fn grid_error(alloc: Global, name: &[u8], error: &GridError) -> FileError
    ensures { StandsFor grid_fault_of (form_refusal name.now) error.now result }
{
    match error {
        GridError::NotJson => refused(alloc, Refusal::NotJson(name)),
        GridError::BadShape(tile) => refused(alloc, Refusal::BadShape(name, tile.bytes())),
        GridError::TooLarge(limit) => refused(alloc, Refusal::TooLarge(name, *limit)),
        GridError::Memory => FileError::Memory,
    }
}

fn profile_error(alloc: Global, name: &[u8], error: &ProfileError) -> FileError
    ensures { StandsFor profile_fault_of (form_refusal name.now) error.now result }
{
    match error {
        ProfileError::NotJson => refused(alloc, Refusal::NotJson(name)),
        ProfileError::BadShape(key) => refused(alloc, Refusal::BadShape(name, key.bytes())),
        ProfileError::TooLarge(limit) => refused(alloc, Refusal::TooLarge(name, *limit)),
        ProfileError::Memory => FileError::Memory,
    }
}

fn side_error(alloc: Global, name: &[u8], error: &SideError) -> FileError
    ensures { StandsFor side_fault_of (side_refusal name.now) error.now result }
{
    match error {
        SideError::NotJson => refused(alloc, Refusal::NotJson(name)),
        SideError::BadShape(key) => refused(alloc, Refusal::BadShape(name, key.bytes())),
        SideError::TooLarge(limit) => refused(alloc, Refusal::TooLarge(name, *limit)),
        SideError::DuplicateName(cell) => refused(alloc, Refusal::DuplicateName(cell.bytes())),
        SideError::UnknownName(cell) => refused(alloc, Refusal::UnknownName(cell.bytes())),
        SideError::Unpaired(cell) => refused(alloc, Refusal::Unpaired(cell.bytes())),
        SideError::WrongDomain(cell) => refused(alloc, Refusal::WrongDomain(cell.bytes())),
        SideError::Memory => FileError::Memory,
    }
}

fn database_error(alloc: Global, name: &[u8], error: DbError) -> FileError
    ensures { StandsFor database_fault_of (database_refusal name.now) error result }
{
    match error {
        DbError::BadLine(line) => refused(alloc, Refusal::BadLine(name, line)),
        DbError::TooLarge(limit) => refused(alloc, Refusal::TooLarge(name, limit)),
        DbError::Memory => FileError::Memory,
    }
}

impl FileReader for ConfigFile {
    ghost use Rattle.design_files.specs.Parsed.{read_config};

    type Value = Config;

    ghost reads = { read_config };

    #[tactic(auto, using(crate::proofs::Refused::read_well, crate::proofs::Refused::fault_refused))]
    fn read(alloc: Global, name: &[u8], bytes: &[u8]) -> Result<Config, FileError> {
        match config_text::read(alloc, bytes) {
            Ok(config) => Ok(config),
            Err(error) => Err(config_error(alloc, name, error)),
        }
    }
}

impl FileReader for GridFile {
    ghost use Rattle.design_files.specs.Parsed.{read_grid};

    type Value = Grid;

    ghost reads = { read_grid };

    #[tactic(auto, using(crate::proofs::Refused::read_well, crate::proofs::Refused::fault_refused))]
    fn read(alloc: Global, name: &[u8], bytes: &[u8]) -> Result<Grid, FileError> {
        match tile_grid::read(alloc, bytes) {
            Ok(grid) => Ok(grid),
            Err(error) => Err(grid_error(alloc, name, &error)),
        }
    }
}

impl FileReader for ProfileFile {
    ghost use Rattle.design_files.specs.Parsed.{read_profile};

    type Value = Profile;

    ghost reads = { read_profile };

    #[tactic(auto, using(crate::proofs::Refused::read_well, crate::proofs::Refused::fault_refused))]
    fn read(alloc: Global, name: &[u8], bytes: &[u8]) -> Result<Profile, FileError> {
        match cell_profile::read(alloc, bytes) {
            Ok(profile) => Ok(profile),
            Err(error) => Err(profile_error(alloc, name, &error)),
        }
    }
}

impl FileReader for SideFile {
    ghost use Rattle.design_files.specs.Parsed.{read_side};

    type Value = Side;

    ghost reads = { read_side };

    #[tactic(auto, using(crate::proofs::Refused::read_well, crate::proofs::Refused::fault_refused))]
    fn read(alloc: Global, name: &[u8], bytes: &[u8]) -> Result<Side, FileError> {
        match side_file::read(alloc, bytes) {
            Ok(side) => Ok(side),
            Err(error) => Err(side_error(alloc, name, &error)),
        }
    }
}

impl FileReader for DatabaseFile {
    ghost use Rattle.design_files.specs.Parsed.{read_database};

    type Value = TileDb;

    ghost reads = { read_database };

    #[tactic(auto, using(crate::proofs::Refused::read_well, crate::proofs::Refused::fault_refused))]
    fn read(alloc: Global, name: &[u8], bytes: &[u8]) -> Result<TileDb, FileError> {
        match bits_db::read(alloc, bytes) {
            Ok(database) => Ok(database),
            Err(error) => Err(database_error(alloc, name, error)),
        }
    }
}
