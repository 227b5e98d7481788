//! The check of a cut.

ghost use Rattle.std.specs.Prelude.{◌↔◌, IsTrue};
ghost use Rattle.net_links.specs.Nets.{IsConnection, IsNet, rules_of};
ghost use Rattle.route_cut.specs.Checked.{IsCutWithRim};

use crate::Cut;
use crate::edges::rim_is_shut;
use crate::kept::all_stay;
use crate::members::{are_below, holds_all, holds_none, is_in, is_rising};
use net_links::PathRules;
use rr_ids::WireId;

// Whether the wires inside are a cut, in wire order, and those of the rim its rim.
fn is_cut_with_rim<R: PathRules>(rules: &R, pin: WireId, inside: &[WireId], rim: &[WireId]) -> bool
    requires net { IsNet (R.network rules.now) (R.rules rules.now) }
    ensures { IsTrue result ↔ IsCutWithRim (R.network rules.now).wiring (rules_of (R.network rules.now) (R.rules rules.now))
        (R.rules rules.now).tree inside.now rim.now pin }
{
    if !is_rising(inside) {
        return false;
    }
    if !is_rising(rim) {
        return false;
    }
    if !are_below(inside, rules.wires()) {
        return false;
    }
    if !are_below(rim, rules.wires()) {
        return false;
    }
    if !holds_all(inside, rules.roots()) {
        return false;
    }
    if is_in(inside, pin) {
        return false;
    }
    if !holds_none(inside, rim) {
        return false;
    }
    if !all_stay(rules, inside, rim) {
        return false;
    }
    rim_is_shut(rules, inside, rim)
}

/// Whether a cut shows that no path leads from the net's tree to the pin: true exactly where `inside` is a cut, in wire
/// order and of wires alone, and `rim` its rim, in wire order. Goes once over the arcs out of the wires inside and over
/// those into the rim, and takes no memory.
pub fn check<R: PathRules>(cut: &Cut, rules: &R, pin: WireId) -> bool
    requires connection { IsConnection (R.network rules.now) (R.rules rules.now) pin }
    ensures { IsTrue result ↔ IsCutWithRim (R.network rules.now).wiring (rules_of (R.network rules.now) (R.rules rules.now))
        (R.rules rules.now).tree cut.now.inside cut.now.rim pin }
{
    is_cut_with_rim(rules, pin, cut.inside.as_slice(), cut.rim.as_slice())
}
