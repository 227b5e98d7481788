//! The kinds of a profile, each by its form.

ghost use Rattle.std.specs.Prelude.{◌≡◌};
ghost use Rattle.serde_json.specs.View.{view};
ghost use Rattle.json_forms.specs.Values.{member_in};
ghost use Rattle.json_forms.specs.Choices.{choice_in, input_take};
ghost use Rattle.json_forms.specs.Kinds.{is_pin_count as is_pin_count_spec};
ghost use Rattle.json_values.specs.Reads.{Reads};

use crate::Choice;
use crate::choices::choice_member;
use crate::takes::Purpose;
use json_values::{
    FormError, FromJson, list_member_as, member_as, name, name_or_empty_member, pair, triple,
};
use rr_ids::{List, Name};
use serde_json::Value;
use std::alloc::Global;
use std::marker::Model;

/// A connection of a tile type that is always there. Contracts see the record of the fields.
#[derive(Drop)]
pub struct Join {
    pub tile: Name,
    pub sink: Name,
    pub source: Name,
}

impl Model for Join {
    ghost use Rattle.records.specs.Profile.{Join as Record};

    ghost Value = { Record };

    ghost view = { λ j. record { tile = j.tile; sink = j.sink; source = j.source } };
}

impl FromJson for Join {
    ghost use Rattle.json_forms.specs.Kinds.{join_in};

    ghost value_in = { join_in };

    #[tactic(auto, unfolding(json_forms::specs::Kinds::join_in))]
    fn from_json(alloc: Global, value: &Value) -> Result<Join, FormError> {
        let (tile, sink, source) = triple(value).ok_or(FormError::Unfit)?;
        Ok(Join {
            tile: name(alloc, tile)?,
            sink: name(alloc, sink)?,
            source: name(alloc, source)?,
        })
    }
}

/// An enum and the value that it must have. Contracts see the record of the fields.
#[derive(Drop)]
pub struct Require {
    pub setting: Name,
    pub value: Name,
}

impl Model for Require {
    ghost use Rattle.records.specs.Profile.{Require as Record};

    ghost Value = { Record };

    ghost view = { λ r. record { setting = r.setting; value = r.value } };
}

impl FromJson for Require {
    ghost use Rattle.json_forms.specs.Kinds.{require_in};

    ghost value_in = { require_in };

    #[tactic(auto, unfolding(json_forms::specs::Kinds::require_in))]
    fn from_json(alloc: Global, value: &Value) -> Result<Require, FormError> {
        let (setting, wanted) = pair(value).ok_or(FormError::Unfit)?;
        Ok(Require {
            setting: name(alloc, setting)?,
            value: name(alloc, wanted)?,
        })
    }
}

/// A table: its word, its pins from number 0 on, and its output. Contracts see the record of the fields.
#[derive(Drop)]
pub struct TableKind {
    pub word: Name,
    pub pins: List<Name>,
    pub out: Name,
}

impl Model for TableKind {
    ghost use Rattle.records.specs.Profile.{TableKind as Record};

    ghost Value = { Record };

    ghost view = { λ t. record { word = t.word; pins = t.pins; out = t.out } };
}

// Whether a table may have this many pins.
fn is_pin_count(count: usize) -> bool
    ensures { result ≡ is_pin_count_spec count }
{
    1 <= count && count <= 4
}

impl FromJson for TableKind {
    ghost use Rattle.json_forms.specs.Kinds.{table_in};

    ghost value_in = { table_in };

    #[tactic(auto, unfolding(json_forms::specs::Kinds::table_in))]
    fn from_json(alloc: Global, value: &Value) -> Result<TableKind, FormError> {
        let word = member_as::<Name>(alloc, value, "word")?;
        let pins = list_member_as::<Name>(alloc, value, "pins")?;
        let out = member_as::<Name>(alloc, value, "out")?;
        if !is_pin_count(pins.len()) {
            return Err(FormError::Unfit);
        }
        Ok(TableKind { word, pins, out })
    }
}

/// A register; `input` is its data. Contracts see the record of the fields.
#[derive(Drop)]
pub struct RegisterKind {
    pub input: Choice,
    pub enable: Choice,
    pub reset: Choice,
    pub set: Choice,
    pub clock: Choice,
    pub out: Name,
}

impl Model for RegisterKind {
    ghost use Rattle.records.specs.Profile.{RegisterKind as Record};

    ghost Value = { Record };

    ghost view = { λ r. record { input = r.input; enable = r.enable; reset = r.reset; set = r.set; clock = r.clock; out = r.out } };
}

// The choice of an input of a register that the member of a name is.
fn input_member(alloc: Global, register: &Value, name: &str) -> Result<Choice, FormError>
    ensures { Reads (λ choice. choice) result (member_in name.now (choice_in input_take) (view register.now)) }
{
    choice_member(alloc, Purpose::Input, register, name)
}

impl FromJson for RegisterKind {
    ghost use Rattle.json_forms.specs.Kinds.{register_in};

    ghost value_in = { register_in };

    #[tactic(auto, unfolding(json_forms::specs::Kinds::register_in))]
    fn from_json(alloc: Global, value: &Value) -> Result<RegisterKind, FormError> {
        let out = member_as::<Name>(alloc, value, "out")?;
        Ok(RegisterKind {
            input: input_member(alloc, value, "data")?,
            enable: input_member(alloc, value, "enable")?,
            reset: input_member(alloc, value, "reset")?,
            set: choice_member(alloc, Purpose::Set, value, "set")?,
            clock: choice_member(alloc, Purpose::Clock, value, "clock")?,
            out,
        })
    }
}

/// A kind of slice: a tile type, a name in it, a shape, the settings that count for it, the enums that must have a
/// value, and its tables and registers. Contracts see the record of the fields.
#[derive(Drop)]
pub struct SliceKind {
    pub tile: Name,
    pub name: Name,
    pub shape: Name,
    pub settings: List<Name>,
    pub require: List<Require>,
    pub tables: List<TableKind>,
    pub registers: List<RegisterKind>,
}

impl Model for SliceKind {
    ghost use Rattle.records.specs.Profile.{SliceKind as Record};

    ghost Value = { Record };

    ghost view = { λ k. record { tile = k.tile; name = k.name; shape = k.shape; settings = k.settings; require = k.require; tables = k.tables; registers = k.registers } };
}

impl FromJson for SliceKind {
    ghost use Rattle.json_forms.specs.Kinds.{slice_in};

    ghost value_in = { slice_in };

    #[tactic(auto, unfolding(json_forms::specs::Kinds::slice_in))]
    fn from_json(alloc: Global, value: &Value) -> Result<SliceKind, FormError> {
        Ok(SliceKind {
            tile: member_as::<Name>(alloc, value, "tile")?,
            name: member_as::<Name>(alloc, value, "name")?,
            shape: member_as::<Name>(alloc, value, "shape")?,
            settings: list_member_as::<Name>(alloc, value, "settings")?,
            require: list_member_as::<Require>(alloc, value, "require")?,
            tables: list_member_as::<TableKind>(alloc, value, "tables")?,
            registers: list_member_as::<RegisterKind>(alloc, value, "registers")?,
        })
    }
}

/// A kind of pad: a tile type, a name in it, the settings that count for it, its mode, and its wires where it has
/// them. Contracts see the record of the fields.
#[derive(Drop)]
pub struct PadKind {
    pub tile: Name,
    pub name: Name,
    pub settings: List<Name>,
    pub mode: Choice,
    pub in_wire: Option<Name>,
    pub out_wire: Option<Name>,
}

impl Model for PadKind {
    ghost use Rattle.records.specs.Profile.{PadKind as Record};

    ghost Value = { Record };

    ghost view = { λ k. record { tile = k.tile; name = k.name; settings = k.settings; mode = k.mode; in_wire = k.in_wire; out_wire = k.out_wire } };
}

impl FromJson for PadKind {
    ghost use Rattle.json_forms.specs.Kinds.{pad_in};

    ghost value_in = { pad_in };

    #[tactic(auto, unfolding(json_forms::specs::Kinds::pad_in))]
    fn from_json(alloc: Global, value: &Value) -> Result<PadKind, FormError> {
        Ok(PadKind {
            tile: member_as::<Name>(alloc, value, "tile")?,
            name: member_as::<Name>(alloc, value, "name")?,
            settings: list_member_as::<Name>(alloc, value, "settings")?,
            mode: choice_member(alloc, Purpose::Mode, value, "mode")?,
            in_wire: name_or_empty_member(alloc, value, "in")?,
            out_wire: name_or_empty_member(alloc, value, "out")?,
        })
    }
}
