//! Nodes in order.

ghost use Rattle.std.specs.Prelude.{◌≡◌, ℕ, ◌<◌, ◌^◌, length, map, IfOk, MatchResult};
ghost use Rattle.std.specs.List.{All, range_with_len};
ghost use Rattle.cycle_order.specs.Orders.{IsOnCycle, IsOrder, Leads, Refuses};

use crate::cycles::least_on_cycle;
use crate::in_turn::list_in_turn;
use crate::{NodeId, OrderError};
use grouped::Grouped;
use rr_ids::Id;
use std::alloc::{AllocError, Global};

// All nodes below a count.
fn nodes_below(alloc: Global, count: u32) -> Result<Vec<NodeId>, AllocError>
    ensures { IfOk result (λ nodes. nodes.items ≡ range_with_len 0 count) }
{
    let mut nodes = Vec::with_capacity(alloc, count as usize)?;
    for number in 0..count {
        nodes.push(NodeId::from_u32(number))?;
    }
    Ok(nodes)
}

/// All nodes below a count in an order in which each comes after all that lead to it; a link leads from each source to the
/// sink at its place. `Loop` exactly where a node reaches itself, with the least that does. Takes time in proportion to the
/// nodes and the links, these times the most that lead to one node or from one; before a `Loop` also a walk along all links
/// for each node below it that lies between two cycles.
pub fn order(
    alloc: Global,
    count: u32,
    sources: &[NodeId],
    sinks: &[NodeId],
) -> Result<Vec<NodeId>, OrderError>
    requires sources { All (λ source. source < count) sources.now }
    requires sinks { All (λ sink. sink < count) sinks.now }
    requires same { length sinks.now ≡ length sources.now }
    requires few { length sources.now < 2 ^ 32 }
    ensures order { IfOk result (λ nodes. IsOrder count (Leads sources.now sinks.now) nodes.items) }
    ensures answer { MatchResult result (λ _. (v : ℕ) → IsOnCycle (Leads sources.now sinks.now) v → ⊥)
        (Refuses (Leads sources.now sinks.now)) }
{
    let next = Grouped::new(alloc, count, sources, sinks)?;
    let before = Grouped::new(alloc, count, sinks, sources)?;
    let all = nodes_below(alloc, count)?;
    let passed = list_in_turn(alloc, &next, &before, &all)?;
    let ended = list_in_turn(alloc, &before, &next, &all)?;
    match least_on_cycle(alloc, &next, &passed, &ended)? {
        Some(node) => Err(OrderError::Loop(node)),
        None => Ok(passed.into_nodes()),
    }
}
