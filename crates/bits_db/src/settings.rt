//! The words of a reading.

ghost use Rattle.std.specs.Prelude.{◌≡◌, ◌∷◌, ◌++◌, [], map, true, IsSome, OnOk};
ghost use Rattle.words.specs.OrMemory.{OrMemory};
ghost use Rattle.words.specs.Firsts.{unless_fault};
ghost use Rattle.texts.specs.Names.{is_name};
ghost use Rattle.grammars.specs.BitsDb.{bits_of, bits_fault, bad_line_if, has_word, last_of};
ghost use Rattle.grammars.specs.RowByRow.{with_bits};
ghost use Rattle.bits_db.specs.Faults.{fault_of};
ghost use Rattle.bits_db.specs.Readings.{KnowsItsWords};

use super::row::pattern_of;
use super::{DbError, WordSetting};
use rr_ids::{Limit, List, Name};
use std::alloc::Global;
use text_cut::{KnownNames, Words};

/// The words that were read so far, of which the last may get more bits. Contracts see the fields, as of muxes.
#[derive(Drop)]
pub(crate) struct WordSettings<'a> {
    alloc: Global,
    settings: List<WordSetting>,
    names: KnownNames<'a>,
}

impl<'a> WordSettings<'a> {
    /// No word was read yet.
    pub(crate) fn new(alloc: Global) -> WordSettings<'a>
        ensures none { result.settings ≡ [] }
        ensures known { KnowsItsWords result }
    {
        WordSettings {
            alloc,
            settings: List::new(alloc),
            names: KnownNames::new(alloc),
        }
    }

    /// The words that were read.
    pub(crate) fn into_list(self) -> List<WordSetting>
        ensures { result ≡ self.entry.settings }
    {
        let WordSettings { settings, .. } = self;
        settings
    }

    /// Adds a word of another name, which has no bits yet.
    pub(crate) fn add_name(&mut self, number: u32, name: &'a [u8]) -> Result<(), DbError>
        requires name { is_name name.now ≡ true }
        requires known { KnowsItsWords self.old }
        ensures words { OrMemory (λ _. self.new.settings) fault_of result (unless_fault (bad_line_if number (has_word self.old.settings name.now)) (self.old.settings ++ record { name = name.now; bits = [] } ∷ [])) }
        ensures open { OnOk result (IsSome (last_of self.new.settings)) }
        ensures known { OnOk result (KnowsItsWords self.new) }
    {
        if !self.names.insert(name)? {
            return Err(DbError::BadLine(number));
        }
        let name = Name::of_bytes(self.alloc, name)?;
        let bits = List::new(self.alloc);
        self.settings.push(WordSetting { name, bits })?;
        Ok(())
    }

    /// Adds a row of the last word, BITS. One was read already.
    pub(crate) fn add_row(
        &mut self,
        number: u32,
        first: &'a [u8],
        words: Words<'a>,
    ) -> Result<(), DbError>
        requires open { IsSome (last_of self.old.settings) }
        requires known { KnowsItsWords self.old }
        ensures words { let bits = bits_of (first.now ∷ map (λ w. w.text) words.entry) in
            OrMemory (λ _. self.new.settings) fault_of result (unless_fault (bits_fault number bits) (with_bits self.old.settings bits)) }
        ensures open { OnOk result (IsSome (last_of self.new.settings)) }
        ensures known { OnOk result (KnowsItsWords self.new) }
    {
        let Some(bits) = pattern_of(self.alloc, first, words)? else {
            return Err(DbError::BadLine(number));
        };
        if bits.is_too_long() {
            return Err(DbError::TooLarge(Limit::Pattern));
        }
        let Some(mut setting) = self.settings.pop() else {
            return Err(DbError::BadLine(number));
        };
        setting.bits.push(bits)?;
        self.settings.push(setting)?;
        Ok(())
    }
}
