//! Labels spread from the pin until none that waits can be worse than the best arc out of the tree.

ghost use Rattle.std.specs.Prelude.{◌≡◌, ℕ, ◌<◌, ◌≤◌, ◌^◌, ◌↔◌, IsTrue, true, false, OnOk, IfOk};
ghost use Rattle.words.specs.Members.{In};
ghost use Rattle.net_links.specs.Nets.{IsConnection, IsNet};
ghost use Rattle.pin_search.specs.Labels.{far, weight_in};
ghost use Rattle.pin_search.specs.Searches.{work};
ghost use Rattle.pin_search.specs.Fronts.{Ends, IsAtRest, Keeps, Searches};

use crate::front::{Front, relabel, take};
use crate::label::Label;
use crate::spread::spread;
use net_links::PathRules;
use rr_ids::WireId;
use std::alloc::AllocError;

// Whether a weight is greater than that of a label.
fn is_beyond(weight: u64, label: Label) -> bool
    requires { label ≤ far }
    ensures { IsTrue result ↔ (weight_in label < weight) }
{
    label.weight() < weight
}

// Spreads from the next wire that waits. False where the search is over.
fn step<R: PathRules>(rules: &R, pin: WireId, front: &mut Front) -> Result<bool, AllocError>
    requires net { IsNet (R.network rules.now) (R.rules rules.now) }
    requires few { (R.network rules.now).wiring.wires < 2 ^ 32 }
    requires search { Searches (R.network rules.now) (R.rules rules.now) pin (R.network rules.now).wiring.wires front.old }
    ensures search { IfOk result (λ more. more ≡ true
        → Searches (R.network rules.now) (R.rules rules.now) pin (R.network rules.now).wiring.wires front.new) }
    ensures less { IfOk result (λ more. more ≡ true
        → work front.new.labels.items front.new.queue < work front.old.labels.items front.old.queue) }
    ensures over { IfOk result (λ more. more ≡ false → Ends (R.network rules.now) (R.rules rules.now) pin front.new) }
    ensures kept { Keeps (R.network rules.now).wiring.wires front.new }
{
    let Some(top) = front.queue.pop() else {
        return Ok(false);
    };
    if is_beyond(top.weight, front.best) {
        return Ok(false);
    }
    if !take(front, top.weight, top.wire) {
        return Ok(true);
    }
    spread(rules, pin, top.wire, front)?;
    Ok(true)
}

// Labels the pin.
fn begin<R: PathRules>(rules: &R, pin: WireId, front: &mut Front) -> Result<(), AllocError>
    requires connection { IsConnection (R.network rules.now) (R.rules rules.now) pin }
    requires outside { In (R.rules rules.now).tree pin → ⊥ }
    requires rest { IsAtRest (R.network rules.now).wiring.wires front.old }
    ensures search { OnOk result (Searches (R.network rules.now) (R.rules rules.now) pin
        (R.network rules.now).wiring.wires front.new) }
    ensures kept { Keeps (R.network rules.now).wiring.wires front.new }
{
    relabel(front, pin, Label::end())?;
    Ok(())
}

// Labels wires until the search is over.
pub(crate) fn settle<R: PathRules>(
    rules: &R,
    pin: WireId,
    front: &mut Front,
) -> Result<(), AllocError>
    requires connection { IsConnection (R.network rules.now) (R.rules rules.now) pin }
    requires few { (R.network rules.now).wiring.wires < 2 ^ 32 }
    requires outside { In (R.rules rules.now).tree pin → ⊥ }
    requires rest { IsAtRest (R.network rules.now).wiring.wires front.old }
    ensures over { OnOk result (Ends (R.network rules.now) (R.rules rules.now) pin front.new) }
    ensures kept { Keeps (R.network rules.now).wiring.wires front.new }
{
    begin(rules, pin, front)?;
    'turns: while step(rules, pin, front)? {}
    Ok(())
}
