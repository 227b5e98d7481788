//! The reader, line by line.

ghost use Rattle.std.specs.Prelude.{◌≡◌, ◌∷◌, ◌++◌, [], true, OnOk, Ok as Done, Some as Present};
ghost use Rattle.words.specs.OrMemory.{OrMemory};
ghost use Rattle.texts.specs.Names.{is_name};
ghost use Rattle.config_grammar.specs.ConfigLines.{DeviceLine};
ghost use Rattle.config_text.specs.Faults.{fault_of};
ghost use Rattle.config_text.specs.Sayings.{saying_view, AreNames};
ghost use Rattle.config_text.specs.LineByLine.{nothing_read, with_says, fault_behind, or_fault, line_step, config_read};
ghost use Rattle.config_text.specs.Known.{KnowsItsTiles, reading_view};
ghost use Rattle.text_cut.specs.Lent.{line_view};

use super::order::sections_in_order;
use super::says::{Saying, says};
use super::sections::Sections;
use super::{Config, ConfigError, Head};
use rr_ids::{List, Name, Text};
use std::alloc::Global;
use text_cut::Line;

/// What was read so far. Behind an error nothing more is read.
#[derive(Drop)]
pub(crate) struct Reader<'a> {
    alloc: Global,
    device: Option<Name>,
    heads: List<Head>,
    sections: Sections<'a>,
}

impl<'a> Reader<'a> {
    /// Nothing was read yet.
    pub(crate) fn new(alloc: Global) -> Reader<'a>
        ensures nothing { reading_view result ≡ nothing_read }
        ensures known { KnowsItsTiles result.sections }
    {
        Reader {
            alloc,
            device: None,
            heads: List::new(alloc),
            sections: Sections::new(alloc),
        }
    }

    /// The configuration that was read, in order.
    pub(crate) fn into_config(self) -> Result<Config, ConfigError>
        requires { KnowsItsTiles self.sections }
        ensures { OrMemory (λ config. config) fault_of result (config_read (reading_view self.entry)) }
    {
        let Reader {
            alloc,
            device,
            heads,
            sections,
        } = self;
        let Some(device) = device else {
            return Err(ConfigError::NoDevice);
        };
        let tiles = sections_in_order(alloc, sections.into_list())?;
        Ok(Config {
            device,
            heads,
            tiles,
        })
    }

    // Names the device.
    fn add_device(&mut self, number: u32, name: &'a [u8]) -> Result<(), ConfigError>
        requires name { is_name name.now ≡ true }
        requires known { KnowsItsTiles self.old.sections }
        ensures step { let said = Present (DeviceLine name.now) in
            OrMemory (λ _. reading_view self.new) fault_of result
            (or_fault (fault_behind number (reading_view self.old) said) (with_says number said (reading_view self.old))) }
        ensures known { OnOk result (KnowsItsTiles self.new.sections) }
    {
        if self.device.is_some() {
            return Err(ConfigError::BadLine(number));
        }
        self.device = Some(Name::of_bytes(self.alloc, name)?);
        Ok(())
    }

    // Adds a head.
    fn add_head(&mut self, text: &'a [u8]) -> Result<(), ConfigError>
        requires { KnowsItsTiles self.old.sections }
        ensures step { let before = reading_view self.old in
            OrMemory (λ _. reading_view self.new) fault_of result
            (Done (record { devices = before.devices; heads = before.heads ++ record { text = text.now } ∷ []; sections = before.sections })) }
        ensures known { OnOk result (KnowsItsTiles self.new.sections) }
    {
        let text = Text::new(self.alloc, text)?;
        self.heads.push(Head { text })?;
        Ok(())
    }

    // Adds what a line says.
    fn add(&mut self, number: u32, saying: Saying<'a>) -> Result<(), ConfigError>
        requires names { AreNames saying }
        requires known { KnowsItsTiles self.old.sections }
        ensures step { let said = Present (saying_view saying.entry) in
            OrMemory (λ _. reading_view self.new) fault_of result
            (or_fault (fault_behind number (reading_view self.old) said) (with_says number said (reading_view self.old))) }
        ensures known { OnOk result (KnowsItsTiles self.new.sections) }
    {
        match saying {
            Saying::Device(name) => self.add_device(number, name),
            Saying::Head(text) => self.add_head(text),
            Saying::Tile(name) => self.sections.add_tile(number, name),
            Saying::InTile(line) => self.sections.add_line(number, line),
            Saying::Outside => Err(ConfigError::OutsideBlock(number)),
        }
    }

    /// Reads a line.
    pub(crate) fn add_line(&mut self, line: &Line<'a>) -> Result<(), ConfigError>
        requires { KnowsItsTiles self.old.sections }
        ensures step { OrMemory (λ _. reading_view self.new) fault_of result (line_step (reading_view self.old) (line_view line.now)) }
        ensures known { OnOk result (KnowsItsTiles self.new.sections) }
    {
        let Some(first) = line.words().next() else {
            return Ok(());
        };
        if first.text.first() == Some(&b'#') {
            return Ok(());
        }
        match says(line) {
            Some(saying) => self.add(line.number, saying),
            None => Err(ConfigError::BadLine(line.number)),
        }
    }
}
