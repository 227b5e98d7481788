//! The memory of searches.

ghost use Rattle.std.specs.Prelude.{◌≡◌, IfOk};

use crate::front::Front;
use crate::label::Label;
use std::alloc::{AllocError, Global};
use std::marker::Model;
use wire_queue::Queue;

/// The memory of searches. Contracts see the number of wires that it is reserved for. Between searches no wire has a
/// label, waits or is touched: a search clears what it came to, and nothing else.
#[derive(Drop)]
pub struct PinSpace {
    pub(crate) front: Front,
    wires: u32,
}

impl Model for PinSpace {
    ghost use Rattle.std.specs.Prelude.{ℕ};
    ghost use Rattle.pin_search.specs.Fronts.{IsAtRest};

    ghost Value = { ℕ };

    ghost view = { λ s. s.wires };

    ghost invariant = { λ s. IsAtRest s.wires s.front };
}

impl PinSpace {
    /// Memory for searches over so many wires.
    pub fn reserve(alloc: Global, wires: u32) -> Result<PinSpace, AllocError>
        ensures { IfOk result (λ s. s ≡ wires) }
    {
        let labels = vec![in alloc; Label::far(); wires as usize]?;
        let waiting = vec![in alloc; false; wires as usize]?;
        let touched = Vec::with_capacity(alloc, wires as usize)?;
        let queue = Queue::reserve(alloc, wires)?;
        Ok(PinSpace {
            front: Front {
                labels,
                waiting,
                queue,
                touched,
                best: Label::far(),
            },
            wires,
        })
    }
}
