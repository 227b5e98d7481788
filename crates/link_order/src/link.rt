//! Links between wires.

use rr_ids::WireId;
use std::marker::Model;

/// A connection that conducts from a source to a sink.
#[derive(Clone, Copy, Debug, PartialEq, Eq)]
pub struct Link {
    pub source: WireId,
    pub sink: WireId,
}

impl Model for Link {
    ghost use Rattle.links.specs.Links.{Link as Pair};

    ghost Value = { Pair };

    ghost view = { λ l. record { source = l.source; sink = l.sink } };

    ghost inverse = { λ l. record { source = l.source; sink = l.sink } };
}
