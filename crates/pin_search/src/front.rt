//! What one search knows of the wires.

ghost use Rattle.std.specs.Prelude.{◌≡◌, ℕ, ◌+◌, ◌<◌, ◌≤◌, length, slice_index, slice_set, get_or, true, false, ◌⊎◌, OnOk, OnErr, IsTrue, ◌↔◌};
ghost use Rattle.words.specs.Members.{In};
ghost use Rattle.net_links.specs.Nets.{IsNet, NetRules, Network};
ghost use Rattle.wire_queue.specs.Waiting.{Stay, Waits};
ghost use Rattle.pin_search.specs.Labels.{Stands, far, weight_in};
ghost use Rattle.pin_search.specs.Fronts.{IsSmall, Keeps, MovesTo, Turn, noted};

use crate::label::Label;
use crate::wires::{label_at, mark_at, put_label, put_mark};
use rr_ids::WireId;
use std::alloc::AllocError;
use wire_queue::Queue;

/// The wires that a search has come to.
#[derive(Drop)]
pub struct Front {
    /// At each wire the label of the best list of arcs so far that leads on to the pin.
    pub labels: Vec<Label>,
    /// Whether a wire waits, under the weight of its label.
    pub waiting: Vec<bool>,
    /// The wires that wait.
    pub queue: Queue,
    /// The wires that have a label.
    pub touched: Vec<WireId>,
    /// The label over the best arc so far out of the tree.
    pub best: Label,
}

// Whether a label is less than that of a wire.
pub(crate) fn is_lower(labels: &[Label], w: WireId, label: Label) -> bool
    requires { w < length labels.now }
    ensures { IsTrue result ↔ (label < slice_index labels.now w) }
{
    label < label_at(labels, w)
}

// Notes that a wire is touched, if it had no label.
pub(crate) fn note(labels: &[Label], touched: &mut Vec<WireId>, w: WireId) -> Result<(), AllocError>
    requires { w < length labels.now }
    ensures noted { OnOk result (touched.new.items ≡ noted labels.now touched.old.items w) }
    ensures kept { (x : ℕ) → In touched.old.items x → In touched.new.items x }
    ensures others { (x : ℕ) → In touched.new.items x → (x ≡ w) ⊎ In touched.old.items x }
{
    if label_at(labels, w) < Label::far() {
        return Ok(());
    }
    touched.push(w)?;
    Ok(())
}

// Lets a wire wait under the weight of a new label, unless it waits under that already.
pub(crate) fn enqueue(
    labels: &[Label],
    waiting: &mut [bool],
    queue: &mut Queue,
    w: WireId,
    label: Label,
) -> Result<(), AllocError>
    requires wire { w < length labels.now }
    requires same { length waiting.old ≡ length labels.now }
    requires most { slice_index labels.now w ≤ far }
    requires lower { label < slice_index labels.now w }
    requires marked { get_or waiting.old w false ≡ true → Waits queue.old (weight_in (slice_index labels.now w)) w }
    ensures waits { OnOk result (Waits queue.new (weight_in label) w) }
    ensures stay { OnOk result (Stay queue.old queue.new) }
    ensures others { OnOk result ((entry : ℕ × ℕ) → In queue.new entry → (entry.1 ≡ w) ⊎ In queue.old entry) }
    ensures count { OnOk result (length queue.new ≤ length queue.old + 1) }
    ensures mark { OnOk result (waiting.new ≡ slice_set waiting.old w true) }
    ensures unmarked { OnErr result (waiting.new ≡ waiting.old) }
{
    if mark_at(waiting, w) && label.weight() >= label_at(labels, w).weight() {
        put_mark(waiting, w, true);
        return Ok(());
    }
    queue.push(label.weight(), w)?;
    put_mark(waiting, w, true);
    Ok(())
}

// Gives a wire a lower label, and lets it wait under it.
pub(crate) fn relabel(front: &mut Front, w: WireId, label: Label) -> Result<(), AllocError>
    requires wire { w < length front.old.labels.items }
    requires same { length front.old.waiting.items ≡ length front.old.labels.items }
    requires most { slice_index front.old.labels.items w ≤ far }
    requires lower { label < slice_index front.old.labels.items w }
    requires marked { get_or front.old.waiting.items w false ≡ true
        → Waits front.old.queue (weight_in (slice_index front.old.labels.items w)) w }
    ensures labels { OnOk result (front.new.labels.items ≡ slice_set front.old.labels.items w label) }
    ensures waiting { OnOk result (front.new.waiting.items ≡ slice_set front.old.waiting.items w true) }
    ensures waits { OnOk result (Waits front.new.queue (weight_in label) w) }
    ensures stay { OnOk result (Stay front.old.queue front.new.queue) }
    ensures queued { OnOk result ((entry : ℕ × ℕ) → In front.new.queue entry → (entry.1 ≡ w) ⊎ In front.old.queue entry) }
    ensures count { OnOk result (length front.new.queue ≤ length front.old.queue + 1) }
    ensures noted { OnOk result (front.new.touched.items ≡ noted front.old.labels.items front.old.touched.items w) }
    ensures kept { (x : ℕ) → In front.old.touched.items x → In front.new.touched.items x }
    ensures others { (x : ℕ) → In front.new.touched.items x → (x ≡ w) ⊎ In front.old.touched.items x }
    ensures unlabelled { OnErr result (front.new.labels.items ≡ front.old.labels.items) }
    ensures unmarked { OnErr result (front.new.waiting.items ≡ front.old.waiting.items) }
    ensures best { front.new.best ≡ front.old.best }
{
    note(&front.labels, &mut front.touched, w)?;
    enqueue(
        &front.labels,
        &mut front.waiting,
        &mut front.queue,
        w,
        label,
    )?;
    put_label(&mut front.labels, w, label);
    Ok(())
}

// Takes a wire that left the queue under a weight, if it waited under that.
pub(crate) fn take(front: &mut Front, weight: u64, w: WireId) -> bool
    requires wire { w < length front.old.labels.items }
    requires same { length front.old.waiting.items ≡ length front.old.labels.items }
    requires most { slice_index front.old.labels.items w ≤ far }
    ensures taken { result ≡ true → (get_or front.old.waiting.items w false ≡ true)
        × (weight_in (slice_index front.old.labels.items w) ≡ weight)
        × (front.new.waiting.items ≡ slice_set front.old.waiting.items w false) }
    ensures left { result ≡ false → (front.new.waiting.items ≡ front.old.waiting.items)
        × ((get_or front.old.waiting.items w false ≡ false)
        ⊎ (weight_in (slice_index front.old.labels.items w) ≡ weight → ⊥)) }
    ensures labels { front.new.labels.items ≡ front.old.labels.items }
    ensures queue { front.new.queue ≡ front.old.queue }
    ensures touched { front.new.touched.items ≡ front.old.touched.items }
    ensures best { front.new.best ≡ front.old.best }
{
    if !mark_at(&front.waiting, w) {
        return false;
    }
    if label_at(&front.labels, w).weight() != weight {
        return false;
    }
    put_mark(&mut front.waiting, w, false);
    true
}
