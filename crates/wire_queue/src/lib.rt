//! Wires that wait in the order of their weights. The queue is std's heap: what it costs depends on how many wires
//! wait, and not on how many there are.
#![tactic(auto)]

ghost use Rattle.std.specs.Prelude.{◌≡◌, ◌≤◌, ◌+◌, [], OnOk, IfOk, MatchOption, length};
ghost use Rattle.wire_queue.specs.Waiting.{LetIn, Leaves, most};

use rr_ids::{Id, WireId};
use std::alloc::{AllocError, Global};
use std::collections::BinaryHeap;
use std::marker::Model;

/// A wire that waited, and its weight.
#[derive(Clone, Copy, Debug, PartialEq, Eq)]
pub struct Waiting {
    pub weight: u64,
    pub wire: WireId,
}

/// Wires that wait, each under a weight; a wire may wait under several.
#[derive(Drop)]
pub struct Queue {
    // By how much a weight is below the greatest, since the heap gives out the greatest, and the wire's number.
    heap: BinaryHeap<(u64, u32)>,
}

impl Model for Queue {
    ghost use Rattle.std.specs.Prelude.{List, ℕ};
    ghost use Rattle.std.specs.BinaryHeap.{heap_items, IsHeap};
    ghost use Rattle.std.specs.Ordering.{nat_cmp, ordering_then};

    ghost Value = { List (ℕ × ℕ) };

    ghost view = { λ q. heap_items q.heap };

    ghost invariant = { λ q. IsHeap (λ x y. ordering_then (nat_cmp x.0 y.0) (nat_cmp x.1 y.1)) (heap_items q.heap) };
}

// By how much a weight is below the greatest.
fn below_most(weight: u64) -> u64
    ensures { result + weight ≡ most }
{
    u64::MAX - weight
}

impl Queue {
    /// No wire waits. There is room for so many.
    pub fn reserve(alloc: Global, wires: u32) -> Result<Queue, AllocError>
        ensures { IfOk result (λ q. q ≡ []) }
    {
        let heap = BinaryHeap::with_capacity(alloc, wires as usize)?;
        Ok(Queue { heap })
    }

    /// Lets a wire wait under a weight. After want of memory those that waited still do.
    pub fn push(&mut self, weight: u64, w: WireId) -> Result<(), AllocError>
        ensures { OnOk result (LetIn self.old self.new weight w) }
    {
        self.heap.push((below_most(weight), w.to_u32()))?;
        Ok(())
    }

    /// Takes out a wire of the least weight.
    pub fn pop(&mut self) -> Option<Waiting>
        ensures { MatchOption result (self.old ≡ []) (λ top. (top.weight ≤ most) × Leaves self.old self.new top.weight top.wire) }
    {
        let Some((left, w)) = self.heap.pop() else {
            return None;
        };
        Some(Waiting {
            weight: below_most(left),
            wire: WireId::from_u32(w),
        })
    }

    /// Lets no wire wait.
    pub fn clear(&mut self)
        ensures { self.new ≡ [] }
    {
        self.heap.clear();
    }
}
