//! The reader and the printer of a text configuration, `.config` (after Project Trellis).
#![tactic(auto)]

ghost use Rattle.words.specs.OrMemory.{OrMemory};
ghost use Rattle.std.specs.Prelude.{OnOk, IfOk};
ghost use Rattle.texts.specs.Lines.{lines_of};
ghost use Rattle.config_grammar.specs.ConfigText.{configuration_of};
ghost use Rattle.config_text.specs.Faults.{fault_of};
ghost use Rattle.config_text.specs.LineByLine.{nothing_read, read_lines};
ghost use Rattle.config_text.specs.Known.{KnowsItsTiles, reading_view};

use reader::Reader;
use std::alloc::Global;
use text_cut::lines;

mod copy;
mod errors;
mod order;
mod printer;
mod reader;
mod says;
mod sections;
mod types;

pub use errors::ConfigError;
pub use printer::print;
pub use types::{ArcLine, Config, EnumLine, Head, TileText, UnknownLine, WordLine};

// What is read behind all lines.
fn read_all<'a>(alloc: Global, bytes: &'a [u8]) -> Result<Reader<'a>, ConfigError>
    ensures whole { OrMemory reading_view fault_of result (read_lines nothing_read (lines_of bytes.now)) }
    ensures known { IfOk result (λ reader. KnowsItsTiles reader.sections) }
{
    let mut reader = Reader::new(alloc);
    for line in lines(bytes) {
        reader.add_line(&line)?;
    }
    Ok(reader)
}

/// Reads a configuration: sections in byte order of their tiles, the arcs of each in byte order of their lines, and of
/// repeated arcs the first. Of faults the first line's counts, and that no line names the device comes last.
#[tactic(auto, using(crate::proofs::Lines::read_by_lines))]
pub fn read(alloc: Global, bytes: &[u8]) -> Result<Config, ConfigError>
    ensures { OrMemory (λ config. config) fault_of result (configuration_of bytes.now) }
{
    read_all(alloc, bytes)?.into_config()
}
