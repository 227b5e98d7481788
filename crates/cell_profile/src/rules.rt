//! The rules that kinds keep, beside their forms.

ghost use Rattle.std.specs.Prelude.{◌≡◌, ◌&&◌, true, IfOk};
ghost use Rattle.std.specs.Option.{option_map_or};
ghost use Rattle.std.specs.List.{list_all, list_any};
ghost use Rattle.std.specs.Set.{is_member};
ghost use Rattle.std.specs.Str.{bytes_eq};
ghost use Rattle.json_forms.specs.KindRules as rules;
ghost use Rattle.cell_profile.specs.Takes.{take_of};

use crate::{Case, Choice, PadKind, RegisterKind, Require, SliceKind, TableKind, Take};
use name_sets::NameSet;
use rr_ids::Name;
use std::alloc::{AllocError, Global};

// Settings

// Whether the setting of a choice, where it has one, is among the settings of its kind.
fn choice_setting_stands(settings: &NameSet<'_>, choice: &Choice) -> bool
    ensures { result ≡ rules.choice_setting_passes (is_member bytes_eq settings.now) choice.now }
{
    match &choice.setting {
        Some(setting) => settings.contains(setting.bytes()),
        None => true,
    }
}

fn register_settings_stand(settings: &NameSet<'_>, register: &RegisterKind) -> bool
    ensures { result ≡ rules.register_settings_pass (is_member bytes_eq settings.now) register.now }
{
    choice_setting_stands(settings, &register.input)
        && choice_setting_stands(settings, &register.enable)
        && choice_setting_stands(settings, &register.reset)
        && choice_setting_stands(settings, &register.set)
        && choice_setting_stands(settings, &register.clock)
}

fn all_registers_stand(settings: &NameSet<'_>, registers: &[RegisterKind]) -> bool
    ensures { result ≡ list_all (rules.register_settings_pass (is_member bytes_eq settings.now)) registers.now }
{
    for register in registers {
        if !register_settings_stand(settings, register) {
            return false;
        }
    }
    true
}

fn requirements_stand(settings: &NameSet<'_>, requirements: &[Require]) -> bool
    ensures { result ≡ list_all (λ require. is_member bytes_eq settings.now require.setting) requirements.now }
{
    for require in requirements {
        if !settings.contains(require.setting.bytes()) {
            return false;
        }
    }
    true
}

fn words_stand(settings: &NameSet<'_>, tables: &[TableKind]) -> bool
    ensures { result ≡ list_all (λ table. is_member bytes_eq settings.now table.word) tables.now }
{
    for table in tables {
        if !settings.contains(table.word.bytes()) {
            return false;
        }
    }
    true
}

// Whether the settings that a slice kind names are among these.
fn slice_settings_stand(settings: &NameSet<'_>, kind: &SliceKind) -> bool
    ensures { result ≡ rules.slice_settings_pass (is_member bytes_eq settings.now) kind.now }
{
    requirements_stand(settings, kind.require.as_slice())
        && words_stand(settings, kind.tables.as_slice())
        && all_registers_stand(settings, kind.registers.as_slice())
}

// Wires

// Whether a wire is of this chip: its name begins with no prefix of another.
fn is_own_wire(other_chips: &NameSet<'_>, wire: &Name) -> bool
    ensures { result ≡ rules.is_own_wire other_chips.now wire.now }
{
    !other_chips.has_front_of(wire.bytes())
}

fn are_own_wires(other_chips: &NameSet<'_>, wires: &[Name]) -> bool
    ensures { result ≡ list_all (rules.is_own_wire other_chips.now) wires.now }
{
    for wire in wires {
        if !is_own_wire(other_chips, wire) {
            return false;
        }
    }
    true
}

fn take_wire_is_own(other_chips: &NameSet<'_>, take: &Take) -> bool
    ensures { result ≡ rules.take_wire_passes (rules.is_own_wire other_chips.now) (take_of take.now) }
{
    match take {
        Take::Wire(wire) => is_own_wire(other_chips, wire),
        Take::NotWire(wire) => is_own_wire(other_chips, wire),
        _ => true,
    }
}

fn choice_wires_are_own(other_chips: &NameSet<'_>, choice: &Choice) -> bool
    ensures { result ≡ rules.choice_wires_pass (rules.is_own_wire other_chips.now) choice.now }
{
    let cases = choice.cases.as_slice();
    for case in cases {
        if !take_wire_is_own(other_chips, &case.take) {
            return false;
        }
    }
    true
}

fn table_wires_are_own(other_chips: &NameSet<'_>, table: &TableKind) -> bool
    ensures { result ≡ rules.table_wires_pass (rules.is_own_wire other_chips.now) table.now }
{
    are_own_wires(other_chips, table.pins.as_slice()) && is_own_wire(other_chips, &table.out)
}

fn register_wires_are_own(other_chips: &NameSet<'_>, register: &RegisterKind) -> bool
    ensures { result ≡ rules.register_wires_pass (rules.is_own_wire other_chips.now) register.now }
{
    choice_wires_are_own(other_chips, &register.input)
        && choice_wires_are_own(other_chips, &register.enable)
        && choice_wires_are_own(other_chips, &register.reset)
        && choice_wires_are_own(other_chips, &register.set)
        && choice_wires_are_own(other_chips, &register.clock)
        && is_own_wire(other_chips, &register.out)
}

fn all_tables_are_own(other_chips: &NameSet<'_>, tables: &[TableKind]) -> bool
    ensures { result ≡ list_all (rules.table_wires_pass (rules.is_own_wire other_chips.now)) tables.now }
{
    for table in tables {
        if !table_wires_are_own(other_chips, table) {
            return false;
        }
    }
    true
}

fn all_registers_are_own(other_chips: &NameSet<'_>, registers: &[RegisterKind]) -> bool
    ensures { result ≡ list_all (rules.register_wires_pass (rules.is_own_wire other_chips.now)) registers.now }
{
    for register in registers {
        if !register_wires_are_own(other_chips, register) {
            return false;
        }
    }
    true
}

fn slice_wires_are_own(other_chips: &NameSet<'_>, kind: &SliceKind) -> bool
    ensures { result ≡ rules.slice_wires_pass (rules.is_own_wire other_chips.now) kind.now }
{
    all_tables_are_own(other_chips, kind.tables.as_slice())
        && all_registers_are_own(other_chips, kind.registers.as_slice())
}

fn pad_wires_are_own(other_chips: &NameSet<'_>, kind: &PadKind) -> bool
    ensures { result ≡ rules.pad_wires_pass (rules.is_own_wire other_chips.now) kind.now }
{
    wire_is_own(other_chips, &kind.in_wire) && wire_is_own(other_chips, &kind.out_wire)
}

fn wire_is_own(other_chips: &NameSet<'_>, wire: &Option<Name>) -> bool
    ensures { result ≡ option_map_or (rules.is_own_wire other_chips.now) wire.now true }
{
    match wire {
        Some(wire) => is_own_wire(other_chips, wire),
        None => true,
    }
}

// Slices and pads

/// Whether a slice kind keeps the rules that look at no other kind: its settings and wires.
pub(crate) fn slice_stands(
    alloc: Global,
    other_chips: &NameSet<'_>,
    kind: &SliceKind,
) -> Result<bool, AllocError>
    ensures { IfOk result (λ stands. stands ≡ (rules.slice_settings_pass (is_member bytes_eq kind.now.settings) kind.now
        && rules.slice_wires_pass (rules.is_own_wire other_chips.now) kind.now)) }
{
    let settings = NameSet::new(alloc, kind.settings.as_slice())?;
    Ok(slice_settings_stand(&settings, kind) && slice_wires_are_own(other_chips, kind))
}

// The most tables, and the most registers, of a slice kind.
const MOST_PARTS: usize = 8;

/// Whether a slice kind has few enough tables and registers.
pub(crate) fn parts_fit(kind: &SliceKind) -> bool
    ensures { result ≡ rules.parts_fit kind.now }
{
    kind.tables.len() <= MOST_PARTS && kind.registers.len() <= MOST_PARTS
}

fn takes_in(cases: &[Case]) -> bool
    ensures { result ≡ list_any rules.takes_in cases.now }
{
    for case in cases {
        if matches!(&case.take, Take::In) {
            return true;
        }
    }
    false
}

fn takes_out(cases: &[Case]) -> bool
    ensures { result ≡ list_any rules.takes_out cases.now }
{
    for case in cases {
        if matches!(&case.take, Take::Out) {
            return true;
        }
    }
    false
}

// Whether a pad that may be an input, or an output, has the wire for it.
fn has_wires_of_modes(kind: &PadKind) -> bool
    ensures { result ≡ rules.has_wires_of_modes kind.now }
{
    let cases = kind.mode.cases.as_slice();
    (!takes_in(cases) || kind.in_wire.is_some()) && (!takes_out(cases) || kind.out_wire.is_some())
}

/// Whether a pad kind keeps the rules that look at no other kind: its setting and wires, and the wires of its modes.
pub(crate) fn pad_stands(
    alloc: Global,
    other_chips: &NameSet<'_>,
    kind: &PadKind,
) -> Result<bool, AllocError>
    ensures { IfOk result (λ stands. stands ≡ (rules.choice_setting_passes (is_member bytes_eq kind.now.settings) kind.now.mode
        && rules.pad_wires_pass (rules.is_own_wire other_chips.now) kind.now
        && rules.has_wires_of_modes kind.now)) }
{
    let settings = NameSet::new(alloc, kind.settings.as_slice())?;
    Ok(
        choice_setting_stands(&settings, &kind.mode)
            && pad_wires_are_own(other_chips, kind)
            && has_wires_of_modes(kind),
    )
}
