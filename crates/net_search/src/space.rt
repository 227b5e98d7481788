//! The memory of searches.

ghost use Rattle.std.specs.Prelude.{◌≡◌, IfOk};

use crate::reach::{Mark, Reach};
use pin_search::PinSpace;
use std::alloc::{AllocError, Global};
use std::marker::Model;

/// The memory of searches. Contracts see the number of wires that it is reserved for. Between searches no wire is marked
/// or listed: a search clears what it came to, and nothing else.
#[derive(Drop)]
pub struct SearchSpace {
    pub(crate) pin: PinSpace,
    pub(crate) reach: Reach,
    wires: u32,
}

impl Model for SearchSpace {
    ghost use Rattle.std.specs.Prelude.{ℕ, ◌≡◌};
    ghost use Rattle.net_search.specs.Gathering.{IsAtRest};

    ghost Value = { ℕ };

    ghost view = { λ s. s.wires };

    ghost invariant = { λ s. record {
      pin : s.pin ≡ s.wires;
      reach : IsAtRest s.wires s.reach;
    } };
}

impl SearchSpace {
    /// Memory for searches over so many wires.
    pub fn reserve(alloc: Global, wires: u32) -> Result<SearchSpace, AllocError>
        ensures { IfOk result (λ s. s ≡ wires) }
    {
        let pin = PinSpace::reserve(alloc, wires)?;
        let marks = vec![in alloc; Mark::Far; wires as usize]?;
        let inside = Vec::with_capacity(alloc, wires as usize)?;
        let edge = Vec::with_capacity(alloc, wires as usize)?;
        Ok(SearchSpace {
            pin,
            reach: Reach {
                marks,
                inside,
                edge,
            },
            wires,
        })
    }
}
