//! The path to a pin, or that there is none.

ghost use Rattle.std.specs.Prelude.{◌≡◌, ◌^◌, ◌<◌, IfOk, MatchOption};
ghost use Rattle.words.specs.Members.{In};
ghost use Rattle.net_links.specs.Nets.{IsConnection};
ghost use Rattle.pin_search.specs.Fronts.{Ends, HasNoPath, IsAtRest, IsPathOfWeight, Keeps};

use crate::clear::clear;
use crate::front::Front;
use crate::label::Label;
use crate::search::settle;
use crate::space::PinSpace;
use crate::walk::follow;
use net_links::PathRules;
use rr_ids::{ArcId, WireId};
use std::alloc::{AllocError, Global};

/// A path and its weight.
#[derive(Drop)]
pub struct Path {
    pub arcs: Vec<ArcId>,
    pub weight: u64,
}

// The path, once the search is over.
fn answer<R: PathRules>(
    alloc: Global,
    rules: &R,
    pin: WireId,
    front: &Front,
) -> Result<Option<Path>, AllocError>
    requires connection { IsConnection (R.network rules.now) (R.rules rules.now) pin }
    requires ends { Ends (R.network rules.now) (R.rules rules.now) pin front.now }
    ensures { IfOk result (λ found. MatchOption found (HasNoPath (R.network rules.now) (R.rules rules.now) pin)
        (λ path. IsPathOfWeight (R.network rules.now) (R.rules rules.now) pin path.arcs.items path.weight)) }
{
    if !front.best.is_below(Label::far()) {
        return Ok(None);
    }
    let arcs = follow(alloc, rules, pin, front)?;
    let weight = front.best.weight();
    Ok(Some(Path { arcs, weight }))
}

// The search over lent memory.
fn search<R: PathRules>(
    alloc: Global,
    rules: &R,
    pin: WireId,
    front: &mut Front,
) -> Result<Option<Path>, AllocError>
    requires connection { IsConnection (R.network rules.now) (R.rules rules.now) pin }
    requires few { (R.network rules.now).wiring.wires < 2 ^ 32 }
    requires outside { In (R.rules rules.now).tree pin → ⊥ }
    requires rest { IsAtRest (R.network rules.now).wiring.wires front.old }
    ensures answer { IfOk result (λ found. MatchOption found (HasNoPath (R.network rules.now) (R.rules rules.now) pin)
        (λ path. IsPathOfWeight (R.network rules.now) (R.rules rules.now) pin path.arcs.items path.weight)) }
    ensures kept { Keeps (R.network rules.now).wiring.wires front.new }
{
    settle(rules, pin, front)?;
    answer(alloc, rules, pin, front)
}

/// The path to the pin: one of least weight, and of these the first, with its weight. None where there is no path. The
/// space stays reserved for these wires, whatever is answered.
pub fn find<R: PathRules>(
    alloc: Global,
    rules: &R,
    pin: WireId,
    space: &mut PinSpace,
) -> Result<Option<Path>, AllocError>
    requires connection { IsConnection (R.network rules.now) (R.rules rules.now) pin }
    requires space { space.old ≡ (R.network rules.now).wiring.wires }
    ensures answer { IfOk result (λ found. MatchOption found (HasNoPath (R.network rules.now) (R.rules rules.now) pin)
        (λ path. IsPathOfWeight (R.network rules.now) (R.rules rules.now) pin path.arcs.items path.weight)) }
    ensures space { space.new ≡ space.old }
{
    if rules.in_tree(pin) {
        return Ok(Some(Path {
            arcs: Vec::new(alloc),
            weight: 0,
        }));
    }
    let found = search(alloc, rules, pin, &mut space.front);
    clear(&mut space.front);
    found
}
