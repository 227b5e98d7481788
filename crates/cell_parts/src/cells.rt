//! Cells: slices with their tables and registers, and pads.

use rr_ids::{DeviceBit, Domain, List, Name, WireId};
use std::marker::Model;

/// A table: its word, whose bit k is what the table gives at address k, the wires of its pins from number 0 on, and the
/// wire of its output. Contracts see the record of the fields.
#[derive(Drop)]
pub struct TableCell {
    pub word: u16,
    pub pins: List<WireId>,
    pub out: WireId,
}

impl Model for TableCell {
    ghost use Rattle.circuit.specs.Cells.{TableCell as Record};

    ghost Value = { Record };

    ghost view = { λ t. record { word = t.word; pins = t.pins; out = t.out } };
}

/// What a register takes: what a wire carries, its opposite, or a constant.
#[derive(Clone, Copy, Debug, PartialEq, Eq)]
pub enum Input {
    Wire(WireId),
    NotWire(WireId),
    Zero,
    One,
}

/// A register; `input` is its data, and `set` is the bit that it takes where it is reset. Contracts see the record of the
/// fields.
#[derive(Drop)]
pub struct RegisterCell {
    pub input: Input,
    pub enable: Input,
    pub reset: Input,
    pub set: bool,
    pub clock: Input,
    pub out: WireId,
}

impl Model for RegisterCell {
    ghost use Rattle.circuit.specs.Cells.{RegisterCell as Record};
    ghost use Rattle.cell_parts.specs.CellViews.{input_of};

    ghost Value = { Record };

    ghost view = { λ r. record {
      input = input_of r.input;
      enable = input_of r.enable;
      reset = input_of r.reset;
      set = r.set;
      clock = input_of r.clock;
      out = r.out;
    } };
}

/// A slice with its domain; `bits` are the device bits of its settings. Contracts see the record of the fields.
#[derive(Drop)]
pub struct SliceCell {
    pub name: Name,
    pub domain: Domain,
    pub tables: List<TableCell>,
    pub registers: List<RegisterCell>,
    pub bits: List<DeviceBit>,
}

impl Model for SliceCell {
    ghost use Rattle.circuit.specs.Cells.{SliceCell as Record};
    ghost use Rattle.rr_ids.specs.Domains.{domain_of};

    ghost Value = { Record };

    ghost view = { λ s. record { name = s.name; domain = domain_of s.domain; tables = s.tables; registers = s.registers; bits = s.bits } };
}

/// What a pad is for.
#[derive(Clone, Copy, Debug, PartialEq, Eq)]
pub enum Role {
    Input,
    Output,
    Clock,
}

/// A pad with its domain. Its wire is the one into the fabric at an input or a clock, and the one out of the fabric at an
/// output. Contracts see the record of the fields.
#[derive(Drop)]
pub struct PadCell {
    pub name: Name,
    pub domain: Domain,
    pub role: Role,
    pub wire: WireId,
    pub bits: List<DeviceBit>,
}

impl Model for PadCell {
    ghost use Rattle.circuit.specs.Cells.{PadCell as Record};
    ghost use Rattle.cell_parts.specs.CellViews.{role_of};
    ghost use Rattle.rr_ids.specs.Domains.{domain_of};

    ghost Value = { Record };

    ghost view = { λ p. record { name = p.name; domain = domain_of p.domain; role = role_of p.role; wire = p.wire; bits = p.bits } };
}

/// The named cells: slices and pads, each in byte order of names. Contracts see the record of the fields.
#[derive(Drop)]
pub struct Cells {
    pub slices: List<SliceCell>,
    pub pads: List<PadCell>,
}

impl Model for Cells {
    ghost use Rattle.circuit.specs.Cells.{Cells as Record};

    ghost Value = { Record };

    ghost view = { λ c. record { slices = c.slices; pads = c.pads } };
}
