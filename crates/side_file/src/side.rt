//! Side files.

ghost use Rattle.std.specs.Prelude.{◌≡◌, IfOk};

use crate::{Placed, Triple, Voter, copies};
use rr_ids::List;
use std::alloc::{AllocError, Global};
use std::marker::Model;

/// The side file of a design: its named slices and pads at their sites, the triples of slices, of input pads, of output
/// pads and of clock pads, and the voters. Contracts see the record of the fields.
#[derive(Drop)]
pub struct Side {
    pub slices: List<Placed>,
    pub pads: List<Placed>,
    pub triples: List<Triple>,
    pub inputs: List<Triple>,
    pub outputs: List<Triple>,
    pub clocks: List<Triple>,
    pub voters: List<Voter>,
}

impl Model for Side {
    ghost use Rattle.records.specs.Side.{Side as Record};

    ghost Value = { Record };

    ghost view = { λ s. record { slices = s.slices; pads = s.pads; triples = s.triples; inputs = s.inputs; outputs = s.outputs; clocks = s.clocks; voters = s.voters } };
}

impl Side {
    /// An equal side file.
    pub fn copy(&self, alloc: Global) -> Result<Side, AllocError>
        ensures { IfOk result (λ side. side ≡ self.now) }
    {
        Ok(Side {
            slices: copies::list::<Placed>(alloc, &self.slices)?,
            pads: copies::list::<Placed>(alloc, &self.pads)?,
            triples: copies::list::<Triple>(alloc, &self.triples)?,
            inputs: copies::list::<Triple>(alloc, &self.inputs)?,
            outputs: copies::list::<Triple>(alloc, &self.outputs)?,
            clocks: copies::list::<Triple>(alloc, &self.clocks)?,
            voters: copies::list::<Voter>(alloc, &self.voters)?,
        })
    }
}
