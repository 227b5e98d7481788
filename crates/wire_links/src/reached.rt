//! The wires that are reached from one along links.

ghost use Rattle.std.specs.Prelude.{◌≡◌, ◌↔◌, ◌<◌, ◌^◌, ℕ, [], ◌∷◌, nat_eq, length, slice_get, IfOk, OnOk};
ghost use Rattle.std.specs.List.{IsDistinct};
ghost use Rattle.words.specs.Members.{In};
ghost use Rattle.words.specs.Twice.{HasNoneTwice};
ghost use Rattle.links.specs.Links.{Reaches};
ghost use Rattle.indexmap.specs.IndexSet.{insert_all};
ghost use Rattle.wire_feeds.specs.Rows.{AreRowsWithin, Leads};
ghost use Rattle.wire_links.specs.Found.{Finds};

use crate::rows::row_of;
use grouped::Grouped;
use indexmap::IndexSet;
use rr_ids::{Id, WireId};
use std::alloc::{AllocError, Global};

// Adds the wires of a row to those that are found.
fn add_all(found: &mut IndexSet<u32>, row: &[WireId]) -> Result<(), AllocError>
    ensures { OnOk result (found.new.keys ≡ insert_all nat_eq found.old.keys row.now) }
{
    for wire in row {
        found.insert(wire.to_u32())?;
    }
    Ok(())
}

// The number at a place; none where no number stands there.
fn number_at(found: &IndexSet<u32>, at: usize) -> Option<u32>
    ensures number { result ≡ slice_get found.now.keys at }
    ensures apart { IsDistinct nat_eq found.now.keys }
    ensures few { length found.now.keys < 2 ^ 64 }
{
    found.as_slice().get(at).copied()
}

// Finds all wires that are reached from those that are found, by a walk over them in order.
fn find_all(
    next: &Grouped<WireId, WireId>,
    w: WireId,
    found: &mut IndexSet<u32>,
) -> Result<(), AllocError>
    requires within { AreRowsWithin next.now }
    requires begun { found.old.keys ≡ w ∷ [] }
    ensures { OnOk result (Finds next.now w found.new.keys (length found.new.keys)) }
{
    let mut at = 0;
    'walk: while let Some(wire) = number_at(found, at) {
        add_all(found, row_of(next, WireId::from_u32(wire)))?;
        at += 1;
    }
    Ok(())
}

// The wires of these numbers.
fn wires_of(alloc: Global, numbers: &[u32]) -> Result<Vec<WireId>, AllocError>
    ensures { IfOk result (λ v. v.items ≡ numbers.now) }
{
    numbers
        .iter()
        .map(|number| WireId::from_u32(*number))
        .collect(alloc)
}

/// A wire and all wires that are reached from it, each once. `next` has for each wire those to which a link leads.
pub(crate) fn below_along(
    alloc: Global,
    next: &Grouped<WireId, WireId>,
    w: WireId,
) -> Result<Vec<WireId>, AllocError>
    requires within { AreRowsWithin next.now }
    ensures all { IfOk result (λ v. (x : ℕ) → In v.items x ↔ Reaches (Leads next.now) w x) }
    ensures once { IfOk result (λ v. HasNoneTwice v.items) }
{
    let mut found = IndexSet::new(alloc);
    found.insert(w.to_u32())?;
    find_all(next, w, &mut found)?;
    wires_of(alloc, found.as_slice())
}
