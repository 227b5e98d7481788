//! Arcs by their numbers.

ghost use Rattle.arc_search.specs.Numbers.{IsNumberOf};
ghost use Rattle.fabric.specs.InOrder.{IsRising};
ghost use Rattle.graph_lists.specs.ArcLists.{numbers_cmp};
ghost use Rattle.std.specs.Prelude.{◌≡◌, ◌<◌, ◌^◌, length};

use crate::ArcKey;
use arc_rows::ArcInfo;
use rr_ids::{ArcId, Id};
use std::cmp::Ordering;

// How an arc stands to the one that is looked for, in arc order.
fn order(arc: &ArcInfo, key: &ArcKey) -> Ordering
    ensures { result ≡ numbers_cmp arc.now key.now }
{
    let sinks = arc.sink.to_u32().cmp(&key.sink.to_u32());
    let sources = arc.source.to_u32().cmp(&key.source.to_u32());
    let muxes = arc.mux.to_u32().cmp(&key.mux.to_u32());
    let places = (arc.place as usize).cmp(&key.place);
    sinks.then(sources.then(muxes.then(places)))
}

/// The number of an arc among arcs in arc order; `None` exactly where it isn't there. Takes no memory, and time in proportion to the
/// logarithm of the number of arcs.
pub fn number_of(arcs: &[ArcInfo], key: &ArcKey) -> Option<ArcId>
    requires { length arcs.now < 2 ^ 32 }
    ensures { IsRising numbers_cmp arcs.now → IsNumberOf arcs.now key.now result }
{
    match arcs.binary_search_by(|arc| order(arc, key)) {
        Ok(number) => Some(ArcId::from_u32(number as u32)),
        Err(_) => None,
    }
}
