//! The enums of a reading.

ghost use Rattle.std.specs.Prelude.{◌≡◌, ◌∷◌, ◌++◌, [], map, option_map, true, IfOk, OnOk, Some as Present};
ghost use Rattle.words.specs.OrMemory.{OrMemory};
ghost use Rattle.words.specs.Firsts.{unless_fault};
ghost use Rattle.texts.specs.Names.{is_name};
ghost use Rattle.grammars.specs.BitsDb.{option_of as option_of_words, option_fault, bad_line_if, has_enum, last_of};
ghost use Rattle.grammars.specs.RowByRow.{with_option as with_one_option};
ghost use Rattle.bits_db.specs.Faults.{fault_of};
ghost use Rattle.bits_db.specs.Heads.{IsDefault};
ghost use Rattle.bits_db.specs.Readings.{KnowsItsEnums};

use super::row::option_of;
use super::{DbError, EnumOption, EnumSetting};
use rr_ids::{Limit, List, Name};
use std::alloc::{AllocError, Global};
use text_cut::{KnownNames, Words};

/// The enums that were read so far, of which the last may get more options. Contracts see the fields, as of
/// muxes.
#[derive(Drop)]
pub(crate) struct Enums<'a> {
    alloc: Global,
    enums: List<EnumSetting>,
    names: KnownNames<'a>,
    values: KnownNames<'a>,
}

// The default of an enum, where it has one.
fn default_of(alloc: Global, default: Option<&[u8]>) -> Result<Option<Name>, AllocError>
    requires { IsDefault default }
    ensures { IfOk result (λ name. name ≡ option_map (λ d. d.now) default.entry) }
{
    match default {
        Some(name) => Ok(Some(Name::of_bytes(alloc, name)?)),
        None => Ok(None),
    }
}

impl<'a> Enums<'a> {
    /// No enum was read yet.
    pub(crate) fn new(alloc: Global) -> Enums<'a>
        ensures none { result.enums ≡ [] }
        ensures known { KnowsItsEnums result }
    {
        Enums {
            alloc,
            enums: List::new(alloc),
            names: KnownNames::new(alloc),
            values: KnownNames::new(alloc),
        }
    }

    /// The enums that were read.
    pub(crate) fn into_list(self) -> List<EnumSetting>
        ensures { result ≡ self.entry.enums }
    {
        let Enums { enums, .. } = self;
        enums
    }

    /// Adds an enum of another name, which has no options yet.
    pub(crate) fn add_name(
        &mut self,
        number: u32,
        name: &'a [u8],
        default: Option<&'a [u8]>,
    ) -> Result<(), DbError>
        requires name { is_name name.now ≡ true }
        requires default { IsDefault default }
        requires known { KnowsItsEnums self.old }
        ensures enums { OrMemory (λ _. self.new.enums) fault_of result (unless_fault (bad_line_if number (has_enum self.old.enums name.now))
            (self.old.enums ++ record { name = name.now; default = option_map (λ d. d.now) default.entry; options = [] } ∷ [])) }
        ensures known { OnOk result (KnowsItsEnums self.new) }
    {
        if !self.names.insert(name)? {
            return Err(DbError::BadLine(number));
        }
        let name = Name::of_bytes(self.alloc, name)?;
        let default = default_of(self.alloc, default)?;
        let options = List::new(self.alloc);
        self.enums.push(EnumSetting {
            name,
            default,
            options,
        })?;
        self.values.clear();
        Ok(())
    }

    /// Adds a row of the last enum, VALUE BITS.
    pub(crate) fn add_row(
        &mut self,
        number: u32,
        value: &'a [u8],
        bits: Words<'a>,
    ) -> Result<(), DbError>
        requires { KnowsItsEnums self.old }
        ensures enums { let option = option_of_words (value.now ∷ map (λ w. w.text) bits.entry) in
            OrMemory (λ _. self.new.enums) fault_of result (unless_fault (option_fault number option (last_of self.old.enums)) (with_one_option self.old.enums option)) }
        ensures known { OnOk result (KnowsItsEnums self.new) }
    {
        let Some(option) = option_of(self.alloc, value, bits)? else {
            return Err(DbError::BadLine(number));
        };
        self.add_option(number, value, option)
    }

    // Adds an option to the last enum, where it has none of this value.
    fn add_option(
        &mut self,
        number: u32,
        value: &'a [u8],
        option: EnumOption,
    ) -> Result<(), DbError>
        requires value { option.value ≡ value.now }
        requires known { KnowsItsEnums self.old }
        ensures enums { OrMemory (λ _. self.new.enums) fault_of result (unless_fault (option_fault number (Present option) (last_of self.old.enums)) (with_one_option self.old.enums (Present option))) }
        ensures known { OnOk result (KnowsItsEnums self.new) }
    {
        let Some(mut setting) = self.enums.pop() else {
            return Err(DbError::BadLine(number));
        };
        if !self.values.insert(value)? {
            return Err(DbError::BadLine(number));
        }
        if option.bits.is_too_long() {
            return Err(DbError::TooLarge(Limit::Pattern));
        }
        setting.options.push(option)?;
        self.enums.push(setting)?;
        Ok(())
    }
}
