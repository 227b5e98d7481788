//! What tells an arc.

use rr_ids::{MuxId, WireId};
use std::marker::Model;

/// An arc by its mux, its place among the arcs of the mux in the database, and its two wires. Contracts see the numbers of the arc.
#[derive(Clone, Copy, Debug)]
pub struct ArcKey {
    pub mux: MuxId,
    pub place: usize,
    pub source: WireId,
    pub sink: WireId,
}

impl Model for ArcKey {
    ghost use Rattle.graph_lists.specs.ArcLists.{ArcNumbers};

    ghost Value = { ArcNumbers };

    ghost view = { λ a. record { mux = a.mux; place = a.place; source = a.source; sink = a.sink } };

    ghost inverse = { λ a. record { mux = a.mux; place = a.place; source = a.source; sink = a.sink } };
}
