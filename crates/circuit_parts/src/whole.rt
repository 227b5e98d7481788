//! All parts and pins of cells.

ghost use Rattle.std.specs.Prelude.{◌≡◌, ◌+◌, ◌<◌, ◌≤◌, ◌^◌, IfOk, Some, drop, length, map, option_map, slice_get, slice_index, slice_range};
ghost use Rattle.circuit.specs.Parts.{output_pads, sources as sources_of};
ghost use Rattle.circuit.specs.Pins.{pad_pin, pins as pins_in, source_pins};
ghost use Rattle.circuit_parts.specs.Flat.{AreFew, first_pin as first_pin_of};

use crate::SourceId;
use crate::part_pins::{add_pads, add_sources};
use crate::part_sources::{outputs, sources};
use cell_parts::{Cells, PadCell, Pin, Source};
use rr_ids::Id;
use std::alloc::{AllocError, Global};
use std::marker::Model;

/// Cells with their parts that have an output and all their pins in flat lists, where the pins of each part stand in a row.
/// Contracts see the cells.
#[derive(Drop)]
pub struct Parts<'a> {
    cells: &'a Cells,
    sources: Vec<Source<'a>>,
    pins: Vec<Pin<'a>>,
    outputs: Vec<&'a PadCell>,
    // where the pins of each part begin, and last where those of output pads do
    starts: Vec<u32>,
}

impl<'a> Model for Parts<'a> {
    ghost use Rattle.std.specs.Prelude.{map};
    ghost use Rattle.circuit.specs.Cells.{Cells as Record};
    ghost use Rattle.circuit_parts.specs.Flat.{AreFlat};

    ghost Value = { Record };

    ghost view = { λ p. p.cells.now };

    ghost invariant = { λ p. AreFlat p.cells.now p.sources.items p.pins.items (map (λ pad. pad.now) p.outputs.items) p.starts.items };
}

impl<'a> Parts<'a> {
    /// The parts and pins of cells; takes time in proportion to them.
    #[tactic(auto, using(crate::proofs::Starts::flat_made))]
    pub fn of(alloc: Global, cells: &'a Cells) -> Result<Parts<'a>, AllocError>
        requires { AreFew cells.now }
        ensures { IfOk result (λ parts. parts ≡ cells.now) }
    {
        let sources = sources(alloc, cells)?;
        let outputs = outputs(alloc, cells.pads.as_slice())?;
        let mut pins = Vec::new(alloc);
        let mut starts = Vec::new(alloc);
        add_sources(&mut pins, &mut starts, &sources)?;
        add_pads(&mut pins, &outputs)?;
        Ok(Parts {
            cells,
            sources,
            pins,
            outputs,
            starts,
        })
    }

    /// The cells.
    pub fn cells(&self) -> &'a Cells
        ensures { result.now ≡ self.now }
    {
        self.cells
    }

    /// The parts with an output: those of slices, tables before registers, then pads.
    pub fn sources(&self) -> &[Source<'a>]
        ensures all { result.now ≡ sources_of self.now }
        ensures few { length (sources_of self.now) < 2 ^ 32 }
    {
        self.sources.as_slice()
    }

    /// All pins: those of each part in a row, then those of output pads.
    pub fn pins(&self) -> &[Pin<'a>]
        ensures all { result.now ≡ pins_in self.now }
        ensures few { length (pins_in self.now) < 2 ^ 32 }
    {
        self.pins.as_slice()
    }

    /// The output pads, of which each has one pin, in this order.
    pub fn outputs(&self) -> &[&'a PadCell]
        ensures { map (λ pad. pad.now) result.now ≡ output_pads self.now }
    {
        self.outputs.as_slice()
    }

    // Where the pins of a part begin.
    fn start(&self, k: usize) -> usize
        requires { k ≤ length (sources_of self.now) }
        ensures first { result ≡ first_pin_of self.now k }
        ensures within { result ≤ length (pins_in self.now) }
    {
        start_of(&self.starts, k) as usize
    }

    /// The number of the first pin of a part; for the number of parts, that of the first pin of an output pad.
    pub fn first_pin(&self, k: SourceId) -> usize
        requires { k ≤ length (sources_of self.now) }
        ensures first { result ≡ first_pin_of self.now k }
        ensures within { result ≤ length (pins_in self.now) }
    {
        self.start(k.to_u32() as usize)
    }

    /// The pins of a part, which are numbered in a row.
    #[tactic(auto, using(crate::proofs::Starts::pins_cut, crate::proofs::Starts::first_rises))]
    pub fn pins_of(&self, k: SourceId) -> &[Pin<'a>]
        requires { k < length (sources_of self.now) }
        ensures pins { Some result.now ≡ option_map source_pins (slice_get (sources_of self.now) k) }
        ensures range { result.now ≡ slice_range (pins_in self.now) (first_pin_of self.now k) (first_pin_of self.now (k + 1)) }
    {
        let place = k.to_u32() as usize;
        let start = self.start(place);
        let end = self.start(place + 1);
        part(self.pins(), start, end)
    }

    /// The pins of output pads, which have the last numbers.
    #[tactic(auto, using(crate::proofs::Starts::pads_cut))]
    pub fn output_pins(&self) -> &[Pin<'a>]
        ensures pins { result.now ≡ map pad_pin (output_pads self.now) }
        ensures range { result.now ≡ drop (first_pin_of self.now (length (sources_of self.now))) (pins_in self.now) }
    {
        let start = self.start(self.sources().len());
        rest(self.pins(), start)
    }
}

// Where the pins of a part begin.
fn start_of(starts: &[u32], k: usize) -> u32
    requires { k < length starts.now }
    ensures { result ≡ slice_index starts.now k }
{
    starts[k]
}

// The pins from one place up to another one.
fn part<'p, 'a>(pins: &'p [Pin<'a>], start: usize, end: usize) -> &'p [Pin<'a>]
    requires order { start ≤ end }
    requires within { end ≤ length pins.now }
    ensures { result.now ≡ slice_range pins.now start end }
{
    &pins[start..end]
}

// The pins from a place on.
fn rest<'p, 'a>(pins: &'p [Pin<'a>], start: usize) -> &'p [Pin<'a>]
    requires { start ≤ length pins.now }
    ensures { result.now ≡ drop start pins.now }
{
    &pins[start..]
}
