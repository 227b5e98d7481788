//! Copies of lists.

ghost use Rattle.std.specs.Prelude.{◌≡◌, IfOk};

use crate::{Placed, Triple, Voter};
use rr_ids::List;
use std::alloc::{AllocError, Global};

/// What can be copied where there is memory.
pub(crate) trait Copied: Drop {
    ghost use Rattle.std.specs.Prelude.{◌≡◌, IfOk};

    /// An equal value.
    fn copied(&self) -> Result<Self, AllocError>
    where
        Self: Sized,
        ensures { IfOk result (λ it. it ≡ self.now) };
}

impl Copied for Placed {
    fn copied(&self) -> Result<Placed, AllocError> {
        Ok(Placed {
            name: self.name.copy()?,
            tile: self.tile.copy()?,
            kind: self.kind.copy()?,
            domain: self.domain,
        })
    }
}

impl Copied for Triple {
    fn copied(&self) -> Result<Triple, AllocError> {
        Ok(Triple {
            first: self.first.copy()?,
            second: self.second.copy()?,
            third: self.third.copy()?,
        })
    }
}

impl Copied for Voter {
    fn copied(&self) -> Result<Voter, AllocError> {
        Ok(Voter {
            slice: self.slice.copy()?,
            table: self.table,
        })
    }
}

/// An equal list.
pub(crate) fn list<T: Copied>(alloc: Global, items: &List<T>) -> Result<List<T>, AllocError>
    ensures { IfOk result (λ list. list ≡ items.now) }
{
    let mut copies = List::new(alloc);
    for item in items.as_slice() {
        copies.push(item.copied()?)?;
    }
    Ok(copies)
}
