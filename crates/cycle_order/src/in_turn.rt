//! Nodes that are listed in turn: each once all that lead to it are.

ghost use Rattle.std.specs.Prelude.{◌≡◌, ℕ, ◌<◌, ◌^◌, true, false, length, IfOk, OnOk};
ghost use Rattle.words.specs.Members.{In};
ghost use Rattle.cycle_order.specs.Trials.{AreOpposite, AreWithin, IsTrimmed, Tries, TriesAll};

use crate::NodeId;
use crate::listed::Listed;
use grouped::Grouped;
use rr_ids::Id;
use std::alloc::{AllocError, Global};

// Whether all nodes of a row are listed.
fn are_listed(listed: &Listed, row: &[NodeId]) -> bool
    requires { (u : ℕ) → In row.now u → u < listed.now.count }
    ensures yes { result ≡ true → (u : ℕ) → In row.now u → In listed.now.nodes u }
    ensures no { result ≡ false → (u : ℕ) × (In row.now u × (In listed.now.nodes u → ⊥)) }
{
    for node in row {
        if !listed.contains(*node) {
            return false;
        }
    }
    true
}

// Lists a node, unless it is listed or one that leads to it isn't.
fn try_one(
    listed: &mut Listed,
    node: NodeId,
    before: &Grouped<NodeId, NodeId>,
) -> Result<(), AllocError>
    requires count { listed.old.count ≡ length before.now }
    requires within { AreWithin before.now }
    requires known { node < length before.now }
    ensures count { OnOk result (listed.new.count ≡ listed.old.count) }
    ensures tries { OnOk result (Tries before.now listed.old.nodes node listed.new.nodes) }
{
    if listed.contains(node) {
        return Ok(());
    }
    if are_listed(listed, before.row(node)) {
        listed.push(node)?;
    }
    Ok(())
}

// Tries each node of a row.
fn try_all(
    listed: &mut Listed,
    row: &[NodeId],
    before: &Grouped<NodeId, NodeId>,
) -> Result<(), AllocError>
    requires count { listed.old.count ≡ length before.now }
    requires within { AreWithin before.now }
    requires known { (v : ℕ) → In row.now v → v < length before.now }
    ensures count { OnOk result (listed.new.count ≡ listed.old.count) }
    ensures tries { OnOk result (TriesAll before.now listed.old.nodes row.now listed.new.nodes) }
{
    for node in row {
        try_one(listed, *node, before)?;
    }
    Ok(())
}

/// Lists nodes until each other one has a node that leads to it and isn't listed. `next` has for each node those to which a
/// link leads, `before` those from which one does, and `all` has each node. Takes time in proportion to the nodes and the
/// links, these times the most links that lead to one node.
pub(crate) fn list_in_turn(
    alloc: Global,
    next: &Grouped<NodeId, NodeId>,
    before: &Grouped<NodeId, NodeId>,
    all: &[NodeId],
) -> Result<Listed, AllocError>
    requires rows { AreOpposite next.now before.now }
    requires few { length before.now < 2 ^ 32 }
    requires known { (v : ℕ) → In all.now v → v < length before.now }
    requires all { (v : ℕ) → v < length before.now → In all.now v }
    ensures count { IfOk result (λ l. l.count ≡ length before.now) }
    ensures trimmed { IfOk result (λ l. IsTrimmed before.now l.nodes) }
{
    let mut listed = Listed::new(alloc, before.len() as u32)?;
    try_all(&mut listed, all, before)?;
    let mut at = 0;
    'walk: while let Some(node) = listed.at(at) {
        try_all(&mut listed, next.row(node), before)?;
        at += 1;
    }
    Ok(listed)
}
