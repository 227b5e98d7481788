//! A wire is spread from: labels go to the wires next to it.

ghost use Rattle.std.specs.Prelude.{◌≡◌, ℕ, ◌+◌, ◌*◌, ◌<◌, ◌≤◌, ◌^◌, length, slice_index, true, OnOk};
ghost use Rattle.words.specs.Members.{In};
ghost use Rattle.net_links.specs.Nets.{IsNet};
ghost use Rattle.paths.specs.Wiring.{IsArcOf};
ghost use Rattle.pin_search.specs.Labels.{IsTaken, Stands, far, label_by, weight_in};
ghost use Rattle.pin_search.specs.Searches.{AtMost};
ghost use Rattle.pin_search.specs.Fronts.{IsSmall, Keeps, MovesTo, Searches, Turn};

use crate::front::{Front, is_lower, relabel};
use crate::label::Label;
use crate::wires::label_at;
use net_links::PathRules;
use rr_ids::{ArcId, Id, WireId};
use std::alloc::AllocError;

// Lowers the label of a wire outside the tree, and lets it wait under it.
pub(crate) fn lower<R: PathRules>(
    rules: &R,
    pin: WireId,
    busy: WireId,
    front: &mut Front,
    w: WireId,
    label: Label,
) -> Result<(), AllocError>
    requires turn { Turn (R.network rules.now) (R.rules rules.now) pin busy (slice_index front.old.labels.items busy) front.old }
    requires wire { w < (R.network rules.now).wiring.wires }
    requires outside { In (R.rules rules.now).tree w → ⊥ }
    requires above { slice_index front.old.labels.items busy ≤ label }
    requires near { label < far }
    requires small { IsSmall front.old label }
    requires stands { Stands (R.network rules.now) (R.rules rules.now) pin front.old.labels.items w label }
    ensures turn { OnOk result (Turn (R.network rules.now) (R.rules rules.now) pin busy
        (slice_index front.old.labels.items busy) front.new) }
    ensures moves { OnOk result (MovesTo front.old front.new) }
    ensures done { OnOk result (AtMost (R.rules rules.now) front.new.labels.items front.new.best w label) }
    ensures kept { Keeps (R.network rules.now).wiring.wires front.new }
{
    if !is_lower(&front.labels, w, label) {
        return Ok(());
    }
    relabel(front, w, label)?;
    Ok(())
}

// Lowers the labels of the wires from which a link leads to w.
pub(crate) fn spread_links<R: PathRules>(
    rules: &R,
    pin: WireId,
    w: WireId,
    front: &mut Front,
) -> Result<(), AllocError>
    requires net { IsNet (R.network rules.now) (R.rules rules.now) }
    requires turn { Turn (R.network rules.now) (R.rules rules.now) pin w (slice_index front.old.labels.items w) front.old }
    ensures turn { OnOk result (Turn (R.network rules.now) (R.rules rules.now) pin w
        (slice_index front.old.labels.items w) front.new) }
    ensures moves { OnOk result (MovesTo front.old front.new) }
    ensures links { OnOk result ((x : ℕ) → In ((R.rules rules.now).drivers w) x
        → AtMost (R.rules rules.now) front.new.labels.items front.new.best x (slice_index front.old.labels.items w)) }
    ensures kept { Keeps (R.network rules.now).wiring.wires front.new }
{
    let label = label_at(&front.labels, w);
    let drivers = rules.drivers(w);
    for x in drivers {
        lower(rules, pin, w, front, *x, label)?;
    }
    Ok(())
}

// Lowers the label of the source of an arc, whose sink has the label and may be entered, or that of the best arc.
pub(crate) fn spread_arc<R: PathRules>(
    rules: &R,
    pin: WireId,
    w: WireId,
    weight: u64,
    a: ArcId,
    front: &mut Front,
) -> Result<(), AllocError>
    requires net { IsNet (R.network rules.now) (R.rules rules.now) }
    requires arc { IsArcOf (R.network rules.now).wiring a }
    requires sink { (R.network rules.now).wiring.sink a ≡ w }
    requires entered { (R.rules rules.now).enterable w ≡ true }
    requires weight { weight ≡ weight_in (slice_index front.old.labels.items w) + (R.rules rules.now).weight w }
    requires small { weight ≤ (length front.old.touched.items + 1) * 4294967295 }
    requires few { length front.old.touched.items < 2 ^ 32 }
    requires turn { Turn (R.network rules.now) (R.rules rules.now) pin w (slice_index front.old.labels.items w) front.old }
    ensures turn { OnOk result (Turn (R.network rules.now) (R.rules rules.now) pin w
        (slice_index front.old.labels.items w) front.new) }
    ensures moves { OnOk result (MovesTo front.old front.new) }
    ensures arc { OnOk result (IsTaken (R.network rules.now) (R.rules rules.now) a
        → AtMost (R.rules rules.now) front.new.labels.items front.new.best ((R.network rules.now).wiring.source a)
        (label_by (R.network rules.now) (R.rules rules.now) (slice_index front.old.labels.items w) a)) }
    ensures kept { Keeps (R.network rules.now).wiring.wires front.new }
{
    let label = Label::new(weight, a.to_u32());
    if !label.is_below(front.best) {
        return Ok(());
    }
    let source = rules.arc(a).source;
    if rules.in_tree(source) {
        if rules.takes(a) {
            front.best = label;
        }
        return Ok(());
    }
    if !is_lower(&front.labels, source, label) {
        return Ok(());
    }
    if !rules.takes(a) {
        return Ok(());
    }
    lower(rules, pin, w, front, source, label)
}

// Lowers the labels of the sources of the arcs into w, or that of the best arc.
pub(crate) fn spread_arcs<R: PathRules>(
    rules: &R,
    pin: WireId,
    w: WireId,
    front: &mut Front,
) -> Result<(), AllocError>
    requires net { IsNet (R.network rules.now) (R.rules rules.now) }
    requires few { (R.network rules.now).wiring.wires < 2 ^ 32 }
    requires turn { Turn (R.network rules.now) (R.rules rules.now) pin w (slice_index front.old.labels.items w) front.old }
    ensures turn { OnOk result (Turn (R.network rules.now) (R.rules rules.now) pin w
        (slice_index front.old.labels.items w) front.new) }
    ensures moves { OnOk result (MovesTo front.old front.new) }
    ensures arcs { OnOk result ((a : ℕ) → In ((R.network rules.now).ins w) a
        → IsTaken (R.network rules.now) (R.rules rules.now) a
        → AtMost (R.rules rules.now) front.new.labels.items front.new.best ((R.network rules.now).wiring.source a)
        (label_by (R.network rules.now) (R.rules rules.now) (slice_index front.old.labels.items w) a)) }
    ensures kept { Keeps (R.network rules.now).wiring.wires front.new }
{
    if !rules.enterable(w) {
        return Ok(());
    }
    let weight = label_at(&front.labels, w).weight() + u64::from(rules.weight(w));
    let ins = rules.ins(w);
    for a in ins {
        spread_arc(rules, pin, w, weight, *a, front)?;
    }
    Ok(())
}

// Spreads from a wire, unless the best arc isn't worse than its label.
pub(crate) fn spread<R: PathRules>(
    rules: &R,
    pin: WireId,
    w: WireId,
    front: &mut Front,
) -> Result<(), AllocError>
    requires net { IsNet (R.network rules.now) (R.rules rules.now) }
    requires few { (R.network rules.now).wiring.wires < 2 ^ 32 }
    requires turn { Turn (R.network rules.now) (R.rules rules.now) pin w (slice_index front.old.labels.items w) front.old }
    ensures search { OnOk result (Searches (R.network rules.now) (R.rules rules.now) pin
        (R.network rules.now).wiring.wires front.new) }
    ensures moves { OnOk result (MovesTo front.old front.new) }
    ensures kept { Keeps (R.network rules.now).wiring.wires front.new }
{
    if !label_at(&front.labels, w).is_below(front.best) {
        return Ok(());
    }
    spread_links(rules, pin, w, front)?;
    spread_arcs(rules, pin, w, front)?;
    Ok(())
}
