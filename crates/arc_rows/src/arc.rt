//! Arcs by numbers.

use rr_ids::{MuxId, WireId};
use std::marker::Model;

/// An arc: its mux, its place among the arcs of the mux in the database, and its two wires.
#[derive(Clone, Copy, Debug, PartialEq, Eq)]
pub struct ArcInfo {
    pub mux: MuxId,
    pub place: u32,
    pub source: WireId,
    pub sink: WireId,
}

impl Model for ArcInfo {
    ghost use Rattle.graph_lists.specs.ArcLists.{ArcNumbers};

    ghost Value = { ArcNumbers };

    ghost view = { λ a. record { mux = a.mux; place = a.place; source = a.source; sink = a.sink } };

    ghost inverse = { λ a. record { mux = a.mux; place = a.place; source = a.source; sink = a.sink } };
}
