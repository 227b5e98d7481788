//! The path to a pin, or the least cut.

ghost use Rattle.std.specs.Prelude.{◌≡◌, IfOk};
ghost use Rattle.net_links.specs.Nets.{IsConnection, IsNet};
ghost use Rattle.pin_search.specs.Fronts.{HasNoPath};
ghost use Rattle.net_search.specs.Answers.{Answers};
ghost use Rattle.net_search.specs.Gathering.{Blocks, IsAtRest, Keeps};

use crate::clear::clear;
use crate::cut::cut_of;
use crate::gather::gather;
use crate::reach::Reach;
use crate::space::SearchSpace;
use net_links::PathRules;
use pin_search::find;
use route_cut::Cut;
use rr_ids::{ArcId, WireId};
use std::alloc::{AllocError, Global};

/// What a search finds.
#[derive(Drop)]
pub enum PathAnswer {
    /// The path: one of least weight, and of these the first.
    Found { arcs: Vec<ArcId>, weight: u64 },
    /// There is no path; the least cut.
    Blocked(Cut),
}

// The least cut over lent memory, where there is no path.
fn gathered_cut<R: PathRules>(
    alloc: Global,
    rules: &R,
    pin: WireId,
    reach: &mut Reach,
) -> Result<Cut, AllocError>
    requires net { IsNet (R.network rules.now) (R.rules rules.now) }
    requires blocked { HasNoPath (R.network rules.now) (R.rules rules.now) pin }
    requires rest { IsAtRest (R.network rules.now).wiring.wires reach.old }
    ensures cut { IfOk result (λ cut. Blocks (R.network rules.now) (R.rules rules.now) pin cut.inside cut.rim) }
    ensures kept { Keeps (R.network rules.now).wiring.wires reach.new }
{
    gather(rules, reach)?;
    cut_of(alloc, rules, pin, reach)
}

// The least cut, where there is no path. The memory is at rest again.
fn least_cut<R: PathRules>(
    alloc: Global,
    rules: &R,
    pin: WireId,
    reach: &mut Reach,
) -> Result<Cut, AllocError>
    requires net { IsNet (R.network rules.now) (R.rules rules.now) }
    requires blocked { HasNoPath (R.network rules.now) (R.rules rules.now) pin }
    requires rest { IsAtRest (R.network rules.now).wiring.wires reach.old }
    ensures cut { IfOk result (λ cut. Blocks (R.network rules.now) (R.rules rules.now) pin cut.inside cut.rim) }
    ensures rest { IsAtRest (R.network rules.now).wiring.wires reach.new }
{
    let cut = gathered_cut(alloc, rules, pin, reach);
    clear(reach);
    cut
}

/// The path to the pin: one of least weight, and of these the first; or where there is none the least cut. The space
/// stays reserved for these wires, whatever is answered.
pub fn least_path<R: PathRules>(
    alloc: Global,
    rules: &R,
    pin: WireId,
    space: &mut SearchSpace,
) -> Result<PathAnswer, AllocError>
    requires connection { IsConnection (R.network rules.now) (R.rules rules.now) pin }
    requires space { space.old ≡ (R.network rules.now).wiring.wires }
    ensures answer { IfOk result (λ a. Answers (R.network rules.now) (R.rules rules.now) pin a) }
    ensures space { space.new ≡ space.old }
{
    if let Some(path) = find(alloc, rules, pin, &mut space.pin)? {
        return Ok(PathAnswer::Found {
            arcs: path.arcs,
            weight: path.weight,
        });
    }
    let cut = least_cut(alloc, rules, pin, &mut space.reach)?;
    Ok(PathAnswer::Blocked(cut))
}
