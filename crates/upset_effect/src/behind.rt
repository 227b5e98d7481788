//! The wires behind some wires, along counting drivers.

ghost use Rattle.std.specs.Prelude.{◌≡◌, ◌<◌, ◌^◌, ◌↔◌, ℕ, [], nat_eq, length, option_to_list, slice_get, IfOk, OnOk};
ghost use Rattle.std.specs.List.{IsDistinct};
ghost use Rattle.words.specs.Members.{In};
ghost use Rattle.indexmap.specs.IndexSet.{insert_all};
ghost use Rattle.cram_image.specs.Image.{bits as bits_of};
ghost use Rattle.live_routing.specs.Live.{live_routing};
ghost use Rattle.upset_effect.specs.Found.{Finds};
ghost use Rattle.upset_effect.specs.Reach.{IsBehind};

use indexmap::IndexSet;
use live_routing::Live;
use routing_graph::RoutingGraph;
use rr_ids::{Id, WireId};
use std::alloc::{AllocError, Global};

// Adds wires to those that are found.
fn add_all(found: &mut IndexSet<u32>, wires: &[WireId]) -> Result<(), AllocError>
    ensures { OnOk result (found.new.keys ≡ insert_all nat_eq found.old.keys wires.now) }
{
    for wire in wires {
        found.insert(wire.to_u32())?;
    }
    Ok(())
}

// Adds a wire to those that are found, if there is one.
fn add_driver(found: &mut IndexSet<u32>, driver: Option<WireId>) -> Result<(), AllocError>
    ensures { OnOk result (found.new.keys ≡ insert_all nat_eq found.old.keys (option_to_list driver)) }
{
    if let Some(wire) = driver {
        found.insert(wire.to_u32())?;
    }
    Ok(())
}

// The number at a place; none where no number stands there.
fn number_at(found: &IndexSet<u32>, at: usize) -> Option<u32>
    ensures number { result ≡ slice_get found.now.keys at }
    ensures few { length found.now.keys < 2 ^ 64 }
{
    found.as_slice().get(at).copied()
}

// Finds all wires behind those that are found, each once.
fn find_all<G: RoutingGraph>(
    live: &Live<'_, G>,
    found: &mut IndexSet<u32>,
) -> Result<(), AllocError>
    ensures { OnOk result (Finds (live_routing live.now) found.old.keys found.new.keys (length found.new.keys)) }
{
    let mut at = 0;
    'walk: while let Some(wire) = number_at(found, at) {
        add_driver(found, live.driver(WireId::from_u32(wire)))?;
        at += 1;
    }
    Ok(())
}

// The wires of these numbers.
fn wires_of(alloc: Global, numbers: &[u32]) -> Result<Vec<WireId>, AllocError>
    ensures { IfOk result (λ v. v.items ≡ numbers.now) }
{
    numbers
        .iter()
        .map(|number| WireId::from_u32(*number))
        .collect(alloc)
}

/// The wires that are found back from some wires along counting drivers, these first, each once. It costs what it comes to.
pub(crate) fn behind<G: RoutingGraph>(
    alloc: Global,
    live: &Live<'_, G>,
    wires: &[WireId],
) -> Result<Vec<WireId>, AllocError>
    ensures { IfOk result (λ v. (w : ℕ) → In v.items w ↔ IsBehind live.now.graph (bits_of live.now.image) wires.now w) }
{
    let mut found = IndexSet::new(alloc);
    add_all(&mut found, wires)?;
    find_all(live, &mut found)?;
    wires_of(alloc, found.as_slice())
}
