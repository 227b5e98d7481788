//! That nothing leads out of a set of wires but over the rim.

ghost use Rattle.std.specs.Prelude.{◌↔◌, ◌<◌, ◌⊎◌, IsTrue, ℕ};
ghost use Rattle.std.specs.List.Sorted.{IsStrictlyIncreasing};
ghost use Rattle.words.specs.Members.{In};
ghost use Rattle.paths.specs.Wiring.{IsArcOf};
ghost use Rattle.net_links.specs.Nets.{IsNet};
ghost use Rattle.route_cut.specs.Checked.{LeadsWithin, StaysWithin};

use crate::members::{holds_all, is_in};
use net_links::PathRules;
use rr_ids::{ArcId, WireId};

// Whether an arc leads inside or to the rim.
fn arc_stays<R: PathRules>(rules: &R, inside: &[WireId], rim: &[WireId], a: ArcId) -> bool
    requires arc { IsArcOf (R.network rules.now).wiring a }
    requires inside_rises { IsStrictlyIncreasing inside.now }
    requires rim_rises { IsStrictlyIncreasing rim.now }
    ensures { IsTrue result ↔ LeadsWithin (R.network rules.now).wiring inside.now rim.now a }
{
    let sink = rules.arc(a).sink;
    if is_in(inside, sink) {
        return true;
    }
    is_in(rim, sink)
}

// Whether all these arcs lead inside or to the rim.
fn arcs_stay<R: PathRules>(rules: &R, inside: &[WireId], rim: &[WireId], arcs: &[ArcId]) -> bool
    requires arcs { (a : ℕ) → In arcs.now a → IsArcOf (R.network rules.now).wiring a }
    requires inside_rises { IsStrictlyIncreasing inside.now }
    requires rim_rises { IsStrictlyIncreasing rim.now }
    ensures { IsTrue result ↔ ((a : ℕ) → In arcs.now a
        → LeadsWithin (R.network rules.now).wiring inside.now rim.now a) }
{
    for a in arcs {
        if !arc_stays(rules, inside, rim, *a) {
            return false;
        }
    }
    true
}

// Whether links from a wire lead inside, and its arcs do or lead to the rim.
fn wire_stays<R: PathRules>(rules: &R, inside: &[WireId], rim: &[WireId], w: WireId) -> bool
    requires net { IsNet (R.network rules.now) (R.rules rules.now) }
    requires wire { w < (R.network rules.now).wiring.wires }
    requires inside_rises { IsStrictlyIncreasing inside.now }
    requires rim_rises { IsStrictlyIncreasing rim.now }
    ensures { IsTrue result ↔ StaysWithin (R.network rules.now).wiring (R.rules rules.now) inside.now rim.now w }
{
    if !holds_all(inside, rules.next(w)) {
        return false;
    }
    arcs_stay(rules, inside, rim, rules.outs(w))
}

// Whether that holds of each wire inside.
pub(crate) fn all_stay<R: PathRules>(rules: &R, inside: &[WireId], rim: &[WireId]) -> bool
    requires net { IsNet (R.network rules.now) (R.rules rules.now) }
    requires below { (w : ℕ) → In inside.now w → w < (R.network rules.now).wiring.wires }
    requires inside_rises { IsStrictlyIncreasing inside.now }
    requires rim_rises { IsStrictlyIncreasing rim.now }
    ensures { IsTrue result ↔ ((w : ℕ) → In inside.now w
        → StaysWithin (R.network rules.now).wiring (R.rules rules.now) inside.now rim.now w) }
{
    for w in inside {
        if !wire_stays(rules, inside, rim, *w) {
            return false;
        }
    }
    true
}
