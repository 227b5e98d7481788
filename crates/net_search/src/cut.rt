//! The least cut and its rim.

ghost use Rattle.std.specs.Prelude.{◌≡◌, ℕ, ◌<◌, ◌↔◌, length, IfOk, OnOk, ◌⊎◌};
ghost use Rattle.std.specs.List.Sorted.{IsStrictlyIncreasing};
ghost use Rattle.words.specs.Members.{In};
ghost use Rattle.net_links.specs.Nets.{IsNet};
ghost use Rattle.pin_search.specs.Fronts.{HasNoPath};
ghost use Rattle.net_search.specs.Marks.{AreOutside, IsOutside, Lists};
ghost use Rattle.net_search.specs.Gathering.{Blocks, Ends};

use crate::reach::{Mark, Reach, mark_at};
use net_links::PathRules;
use route_cut::Cut;
use rr_ids::{List, WireId};
use std::alloc::{AllocError, Global};

// The wires in order, each once.
fn in_order(mut wires: Vec<WireId>) -> Vec<WireId>
    ensures rising { IsStrictlyIncreasing result.items }
    ensures members { (w : ℕ) → In result.items w ↔ In wires.items w }
{
    wires.sort_unstable();
    wires.dedup();
    wires
}

// The same wires, in a list of their own.
fn copy_of(alloc: Global, wires: &[WireId]) -> Result<Vec<WireId>, AllocError>
    ensures { IfOk result (λ v. v.items ≡ wires.now) }
{
    wires.iter().copied().collect(alloc)
}

// Lists a wire of the edge, if it isn't inside.
fn list_wire(marks: &[Mark], w: WireId, rim: &mut Vec<WireId>) -> Result<(), AllocError>
    requires wire { w < length marks.now }
    requires outside { AreOutside marks.now rim.old.items }
    ensures outside { AreOutside marks.now rim.new.items }
    ensures stay { (x : ℕ) → In rim.old.items x → In rim.new.items x }
    ensures others { (x : ℕ) → In rim.new.items x → In rim.old.items x ⊎ (x ≡ w) }
    ensures lists { OnOk result (Lists marks.now rim.new.items w) }
{
    if let Mark::Inside = mark_at(marks, w) {
        return Ok(());
    }
    rim.push(w)?;
    Ok(())
}

// The wires of the edge that aren't inside.
fn rim_of(alloc: Global, marks: &[Mark], edge: &[WireId]) -> Result<Vec<WireId>, AllocError>
    requires wires { (w : ℕ) → In edge.now w → w < length marks.now }
    ensures { IfOk result (λ v. (w : ℕ) → In v.items w ↔ (In edge.now w × IsOutside marks.now w)) }
{
    let mut rim: Vec<WireId> = Vec::new(alloc);
    for w in edge {
        list_wire(marks, *w, &mut rim)?;
    }
    Ok(rim)
}

// The least cut, once all is gathered.
pub(crate) fn cut_of<R: PathRules>(
    alloc: Global,
    rules: &R,
    pin: WireId,
    reach: &Reach,
) -> Result<Cut, AllocError>
    requires net { IsNet (R.network rules.now) (R.rules rules.now) }
    requires blocked { HasNoPath (R.network rules.now) (R.rules rules.now) pin }
    requires ends { Ends (R.network rules.now) (R.rules rules.now) reach.now }
    ensures { IfOk result (λ cut. Blocks (R.network rules.now) (R.rules rules.now) pin cut.inside cut.rim) }
{
    let rim = rim_of(alloc, &reach.marks, &reach.edge)?;
    let inside = copy_of(alloc, &reach.inside)?;
    Ok(Cut {
        inside: List::from_vec(in_order(inside)),
        rim: List::from_vec(in_order(rim)),
    })
}
