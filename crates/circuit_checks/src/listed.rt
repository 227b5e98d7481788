//! What the checks of a circuit go by.

ghost use Rattle.std.specs.Prelude.{◌≡◌, IfOk, length};
ghost use Rattle.circuit.specs.Pins.{pins as pins_in};
ghost use Rattle.circuit_checks.specs.Lists.{IsKept};

use circuit_parts::{Parts, SourceId};
use part_triples::PartTriples;
use pin_rules::{PinOwner, pin_owners, read_parts};
use side_file::Side;
use std::alloc::{AllocError, Global};
use voter_flags::voter_parts;

/// Parts with the part that feeds each pin, and what is told of them by number: the triple of each part, whether it is read, whether it
/// is a voter, and what each pin is of.
#[derive(Drop)]
pub struct Listed<'s, 'a> {
    pub(crate) parts: &'s Parts<'a>,
    pub(crate) side: &'s Side,
    pub(crate) feeds: &'s [Option<SourceId>],
    pub(crate) triples: PartTriples,
    pub(crate) read: Vec<bool>,
    pub(crate) owners: Vec<PinOwner>,
    pub(crate) voters: Vec<bool>,
}

impl<'s, 'a> Listed<'s, 'a> {
    /// What is told of parts, where `feeds` has the part that feeds each pin. Takes time n log n in parts, pins and the side file.
    pub fn new(
        alloc: Global,
        parts: &'s Parts<'a>,
        side: &'s Side,
        feeds: &'s [Option<SourceId>],
    ) -> Result<Listed<'s, 'a>, AllocError>
        requires { length feeds.now ≡ length (pins_in parts.now) }
        ensures kept { IfOk result IsKept }
        ensures parts { IfOk result (λ listed. listed.parts.now ≡ parts.now) }
        ensures side { IfOk result (λ listed. listed.side.now ≡ side.now) }
        ensures feeds { IfOk result (λ listed. listed.feeds.now ≡ feeds.now) }
    {
        let triples = PartTriples::new(alloc, parts, side)?;
        let read = read_parts(alloc, parts, feeds)?;
        let owners = pin_owners(alloc, parts)?;
        let voters = voter_parts(alloc, &*parts, side.voters.as_slice())?;
        Ok(Listed {
            parts,
            side,
            feeds,
            triples,
            read,
            owners,
            voters,
        })
    }
}
