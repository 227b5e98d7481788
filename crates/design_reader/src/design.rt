//! A design from its files.

ghost use Rattle.std.specs.Prelude.{◌≡◌, IfOk};
ghost use Rattle.design_files.specs.Designs.{design_of};
ghost use Rattle.design_reader.specs.Answers.{Gives};
ghost use Rattle.design_reader.specs.Errors.{ReadCounts};
ghost use Rattle.formed_laws.specs.DatabaseRead.{IsReadDevice};
ghost use Rattle.formed_laws.specs.Readers.{IsReadSide};
ghost use Rattle.run_ends.specs.Reads.{IsReached};

use crate::FileError;
use crate::databases::read_databases;
use crate::files::{MOST_CONFIG_BYTES, MOST_JSON_BYTES, read_file, read_grid};
use crate::readers::{ConfigFile, ProfileFile, SideFile};
use cell_profile::Profile;
use command_words::Inputs;
use config_text::Config;
use device_names::{Databases, Device};
use outside::Files;
use side_file::Side;
use std::alloc::Global;
use std::marker::Model;
use tile_grid::Grid;

/// A design that was read: its configuration, the device that this names, and its side file. Contracts see the design that
/// they are.
#[derive(Drop)]
pub struct ReadDesign {
    pub config: Config,
    pub grid: Grid,
    pub profile: Profile,
    pub side: Side,
    pub databases: Databases,
}

impl Model for ReadDesign {
    ghost use Rattle.design_files.specs.Designs.{Design};

    ghost Value = { Design };

    ghost view = { λ d. record { config = d.config; device = record { grid = d.grid; types = d.databases; profile = d.profile }; side = d.side } };
}

impl ReadDesign {
    /// The device that the design names.
    pub fn device(&self) -> Device<'_>
        ensures { result ≡ self.now.device }
    {
        Device {
            grid: &self.grid,
            databases: &self.databases,
            profile: &self.profile,
        }
    }
}

/// The design of the inputs: reads the configuration, the grid of the device that it names, the profile, the side file, and
/// the databases of the grid's tile types, each file once. The first file that is missing, too long or faulty is refused.
pub fn read_design<F: Files>(
    alloc: Global,
    files: &mut F,
    inputs: &Inputs<'_>,
) -> Result<ReadDesign, FileError>
    ensures told { F.told files.old → F.told files.new }
    ensures content { F.file files.new ≡ F.file files.old }

    // The design of the files; or its refusal; or the name of a file whose read failed, to which a run comes.
    ensures answer { F.told files.old → Gives (λ design. design) (design_of (F.file files.old) inputs.now) (IsReached (F.file files.old) inputs.now) result }

    // Whatever files tell, what is read was read from some bytes.
    ensures device { IfOk result (λ design. IsReadDevice design.device) }
    ensures side { IfOk result (λ design. IsReadSide design.side) }

    // A failed read is told only where one failed, and none is swallowed.
    ensures reads { ReadCounts result (F.read_faults files.old) (F.read_faults files.new) }
    ensures writes { F.write_faults files.new ≡ F.write_faults files.old }
{
    let config = read_file::<ConfigFile, F>(alloc, files, inputs.config, MOST_CONFIG_BYTES)?;
    let grid = read_grid(alloc, files, inputs.family, &config.device)?;
    let profile = read_file::<ProfileFile, F>(alloc, files, inputs.profile, MOST_JSON_BYTES)?;
    let side = read_file::<SideFile, F>(alloc, files, inputs.side, MOST_JSON_BYTES)?;
    let databases = read_databases(alloc, files, inputs.family, &grid)?;
    Ok(ReadDesign {
        config,
        grid,
        profile,
        side,
        databases,
    })
}
