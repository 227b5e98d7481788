//! Parts and pins, which lend their cells.

use crate::{RegisterCell, TableCell};
use rr_ids::{Domain, Name, WireId};
use std::marker::Model;

/// A table or a register by its number in its slice, or a pad.
#[derive(Clone, Copy, Debug, PartialEq, Eq)]
pub enum PartKind {
    Table(u32),
    Register(u32),
    Pad,
}

/// What drives the output of a part.
#[derive(Clone, Copy)]
pub enum Kind<'a> {
    Table(&'a TableCell),
    Register(&'a RegisterCell),
    Input,
    Clock,
}

/// A part with a modelled output: a table, a register, an input pad or a clock pad, with the wire of its output and the domain
/// of its cell. Contracts see the record of the fields.
#[derive(Drop)]
pub struct Source<'a> {
    pub cell: &'a Name,
    pub part: PartKind,
    pub domain: Domain,
    pub kind: Kind<'a>,
    pub out: WireId,
}

impl<'a> Model for Source<'a> {
    ghost use Rattle.circuit.specs.Parts.{Source as Record};
    ghost use Rattle.cell_parts.specs.PartViews.{kind_of, part_of};
    ghost use Rattle.rr_ids.specs.Domains.{domain_of};

    ghost Value = { Record };

    ghost view = { λ s. record { part = record { cell = s.cell.now; part = part_of s.part }; domain = domain_of s.domain; kind = kind_of s.kind; out = s.out } };
}

/// A pin of a part by its number there, with the wire that it takes. Contracts see the record of the fields.
#[derive(Drop)]
pub struct Pin<'a> {
    pub cell: &'a Name,
    pub part: PartKind,
    pub pin: u32,
    pub wire: WireId,
}

impl<'a> Model for Pin<'a> {
    ghost use Rattle.circuit.specs.Pins.{Pin as Record};
    ghost use Rattle.cell_parts.specs.PartViews.{part_of};

    ghost Value = { Record };

    ghost view = { λ p. record { ref = record { part = record { cell = p.cell.now; part = part_of p.part }; pin = p.pin }; wire = p.wire } };
}
