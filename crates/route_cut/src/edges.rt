//! That arcs lead from inside to each wire of a rim, and that none of them may be taken. A wire of the rim is asked once
//! whether it may be entered.

ghost use Rattle.std.specs.Prelude.{◌↔◌, ◌≡◌, ◌<◌, true, false, IsTrue, ℕ};
ghost use Rattle.std.specs.List.Sorted.{IsStrictlyIncreasing};
ghost use Rattle.words.specs.Members.{In};
ghost use Rattle.paths.specs.Wiring.{IsArcOf};
ghost use Rattle.net_links.specs.Nets.{IsNet};
ghost use Rattle.route_cut.specs.Checked.{IsShutEdge, SomeFrom};

use crate::members::is_in;
use net_links::PathRules;
use rr_ids::{ArcId, WireId};

// Whether the source of an arc is inside.
fn is_from<R: PathRules>(rules: &R, inside: &[WireId], a: ArcId) -> bool
    requires arc { IsArcOf (R.network rules.now).wiring a }
    requires rises { IsStrictlyIncreasing inside.now }
    ensures { IsTrue result ↔ In inside.now ((R.network rules.now).wiring.source a) }
{
    is_in(inside, rules.arc(a).source)
}

// Whether one of these arcs leads from inside.
fn some_from<R: PathRules>(rules: &R, inside: &[WireId], arcs: &[ArcId]) -> bool
    requires arcs { (a : ℕ) → In arcs.now a → IsArcOf (R.network rules.now).wiring a }
    requires rises { IsStrictlyIncreasing inside.now }
    ensures { IsTrue result ↔ SomeFrom (R.network rules.now).wiring inside.now arcs.now }
{
    for a in arcs {
        if is_from(rules, inside, *a) {
            return true;
        }
    }
    false
}

// Whether an arc leads from inside, and may be taken where its sink may be entered.
fn leads_out<R: PathRules>(rules: &R, inside: &[WireId], a: ArcId) -> bool
    requires arc { IsArcOf (R.network rules.now).wiring a }
    requires rises { IsStrictlyIncreasing inside.now }
    ensures { IsTrue result ↔ (In inside.now ((R.network rules.now).wiring.source a) × ((R.rules rules.now).takes a ≡ true)) }
{
    if !is_from(rules, inside, a) {
        return false;
    }
    rules.takes(a)
}

// Whether none of these arcs does.
fn none_leads_out<R: PathRules>(rules: &R, inside: &[WireId], arcs: &[ArcId]) -> bool
    requires arcs { (a : ℕ) → In arcs.now a → IsArcOf (R.network rules.now).wiring a }
    requires rises { IsStrictlyIncreasing inside.now }
    ensures { IsTrue result ↔ ((a : ℕ) → In arcs.now a
        → In inside.now ((R.network rules.now).wiring.source a) × ((R.rules rules.now).takes a ≡ true) → ⊥) }
{
    for a in arcs {
        if leads_out(rules, inside, *a) {
            return false;
        }
    }
    true
}

// Whether arcs lead from inside to a wire, and none of them may be taken.
fn is_shut_edge<R: PathRules>(rules: &R, inside: &[WireId], w: WireId) -> bool
    requires net { IsNet (R.network rules.now) (R.rules rules.now) }
    requires wire { w < (R.network rules.now).wiring.wires }
    requires rises { IsStrictlyIncreasing inside.now }
    ensures { IsTrue result ↔ IsShutEdge (R.network rules.now) (R.rules rules.now) inside.now w }
{
    let ins = rules.ins(w);
    if !some_from(rules, inside, ins) {
        return false;
    }
    if !rules.enterable(w) {
        return true;
    }
    none_leads_out(rules, inside, ins)
}

// Whether that holds of all wires of the rim.
pub(crate) fn rim_is_shut<R: PathRules>(rules: &R, inside: &[WireId], rim: &[WireId]) -> bool
    requires net { IsNet (R.network rules.now) (R.rules rules.now) }
    requires below { (w : ℕ) → In rim.now w → w < (R.network rules.now).wiring.wires }
    requires rises { IsStrictlyIncreasing inside.now }
    ensures { IsTrue result ↔ ((w : ℕ) → In rim.now w
        → IsShutEdge (R.network rules.now) (R.rules rules.now) inside.now w) }
{
    for w in rim {
        if !is_shut_edge(rules, inside, *w) {
            return false;
        }
    }
    true
}
