//! Nodes that reach themselves.

ghost use Rattle.std.specs.Prelude.{◌≡◌, ℕ, ◌<◌, ◌≤◌, ◌^◌, ◌↔◌, true, length, IfOk, OnOk, MatchOption};
ghost use Rattle.words.specs.Members.{In};
ghost use Rattle.cycle_order.specs.Orders.{IsLeastOnCycle, IsOnCycle};
ghost use Rattle.cycle_order.specs.Trials.{AreWithin, IsNext, ListsOne, ListsRow};

use crate::NodeId;
use crate::listed::Listed;
use grouped::Grouped;
use rr_ids::Id;
use std::alloc::{AllocError, Global};

// Lists a node, unless it is listed.
fn list_one(listed: &mut Listed, node: NodeId) -> Result<(), AllocError>
    requires { node < listed.old.count }
    ensures count { OnOk result (listed.new.count ≡ listed.old.count) }
    ensures one { OnOk result (ListsOne listed.old.nodes node listed.new.nodes) }
{
    if !listed.contains(node) {
        listed.push(node)?;
    }
    Ok(())
}

// Lists the nodes of a row, each unless it is listed.
fn list_row(listed: &mut Listed, row: &[NodeId]) -> Result<(), AllocError>
    requires { (v : ℕ) → In row.now v → v < listed.old.count }
    ensures count { OnOk result (listed.new.count ≡ listed.old.count) }
    ensures row { OnOk result (ListsRow listed.old.nodes row.now listed.new.nodes) }
{
    for node in row {
        list_one(listed, *node)?;
    }
    Ok(())
}

// Whether a node reaches itself.
fn reaches_itself(
    alloc: Global,
    next: &Grouped<NodeId, NodeId>,
    node: NodeId,
) -> Result<bool, AllocError>
    requires within { AreWithin next.now }
    requires few { length next.now < 2 ^ 32 }
    requires known { node < length next.now }
    ensures { IfOk result (λ b. (b ≡ true) ↔ IsOnCycle (IsNext next.now) node) }
{
    let mut listed = Listed::new(alloc, next.len() as u32)?;
    list_row(&mut listed, next.row(node))?;
    let mut at = 0;
    'walk: while let Some(found) = listed.at(at) {
        list_row(&mut listed, next.row(found))?;
        at += 1;
    }
    Ok(listed.contains(node))
}

// Whether a node reaches itself. Nodes that are `passed` or `ended` don't.
fn is_on_cycle(
    alloc: Global,
    next: &Grouped<NodeId, NodeId>,
    passed: &Listed,
    ended: &Listed,
    node: NodeId,
) -> Result<bool, AllocError>
    requires within { AreWithin next.now }
    requires few { length next.now < 2 ^ 32 }
    requires known { node < length next.now }
    requires passed_count { passed.now.count ≡ length next.now }
    requires ended_count { ended.now.count ≡ length next.now }
    requires passed { In passed.now.nodes node → IsOnCycle (IsNext next.now) node → ⊥ }
    requires ended { In ended.now.nodes node → IsOnCycle (IsNext next.now) node → ⊥ }
    ensures { IfOk result (λ b. (b ≡ true) ↔ IsOnCycle (IsNext next.now) node) }
{
    if passed.contains(node) {
        return Ok(false);
    }
    if ended.contains(node) {
        return Ok(false);
    }
    reaches_itself(alloc, next, node)
}

/// The least node that reaches itself. Nodes that are `passed` or `ended` don't. Takes a walk along all links for each of
/// the others before it.
pub(crate) fn least_on_cycle(
    alloc: Global,
    next: &Grouped<NodeId, NodeId>,
    passed: &Listed,
    ended: &Listed,
) -> Result<Option<NodeId>, AllocError>
    requires within { AreWithin next.now }
    requires few { length next.now < 2 ^ 32 }
    requires passed_count { passed.now.count ≡ length next.now }
    requires ended_count { ended.now.count ≡ length next.now }
    requires passed { (v : ℕ) → In passed.now.nodes v → IsOnCycle (IsNext next.now) v → ⊥ }
    requires ended { (v : ℕ) → In ended.now.nodes v → IsOnCycle (IsNext next.now) v → ⊥ }
    ensures { IfOk result (λ found. MatchOption found ((v : ℕ) → v < length next.now → IsOnCycle (IsNext next.now) v → ⊥)
        (IsLeastOnCycle (IsNext next.now))) }
{
    for number in 0..next.len() as u32 {
        let node = NodeId::from_u32(number);
        let found = is_on_cycle(alloc, next, passed, ended, node)?;
        if found {
            return Ok(Some(node));
        }
    }
    Ok(None)
}
