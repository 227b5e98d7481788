//! What links and arcs lead to from a wire is taken in.

ghost use Rattle.std.specs.Prelude.{◌≡◌, ◌<◌, ℕ, OnOk};
ghost use Rattle.words.specs.Members.{In};
ghost use Rattle.paths.specs.Wiring.{IsArcOf};
ghost use Rattle.net_links.specs.Nets.{IsNet, rules_of};
ghost use Rattle.route_cut.specs.Checked.{IsKept, StaysIn};
ghost use Rattle.net_search.specs.Gathering.{Gathers, Grows};

use crate::meet::{enter, meet};
use crate::reach::{Mark, Reach};
use net_links::PathRules;
use rr_ids::{ArcId, WireId};
use std::alloc::AllocError;

// Takes in the wires to which links lead from a wire inside.
fn spread_links<R: PathRules>(rules: &R, w: WireId, reach: &mut Reach) -> Result<(), AllocError>
    requires net { IsNet (R.network rules.now) (R.rules rules.now) }
    requires from { In reach.old.inside.items w }
    requires gathers { Gathers (R.network rules.now) (R.rules rules.now) reach.old }
    ensures gathers { Gathers (R.network rules.now) (R.rules rules.now) reach.new }
    ensures inside { Grows reach.old.inside.items reach.new.inside.items }
    ensures edge { Grows reach.old.edge.items reach.new.edge.items }
    ensures links { OnOk result ((x : ℕ) → In ((R.rules rules.now).next w) x → In reach.new.inside.items x) }
{
    let next = rules.next(w);
    for x in next {
        enter(rules, *x, reach)?;
    }
    Ok(())
}

// Takes in the sink of an arc from inside, if the arc may be taken.
fn spread_arc<R: PathRules>(rules: &R, a: ArcId, reach: &mut Reach) -> Result<(), AllocError>
    requires net { IsNet (R.network rules.now) (R.rules rules.now) }
    requires arc { IsArcOf (R.network rules.now).wiring a }
    requires from { In reach.old.inside.items ((R.network rules.now).wiring.source a) }
    requires gathers { Gathers (R.network rules.now) (R.rules rules.now) reach.old }
    ensures gathers { Gathers (R.network rules.now) (R.rules rules.now) reach.new }
    ensures inside { Grows reach.old.inside.items reach.new.inside.items }
    ensures edge { Grows reach.old.edge.items reach.new.edge.items }
    ensures stays { OnOk result (StaysIn (R.network rules.now).wiring (rules_of (R.network rules.now) (R.rules rules.now))
        reach.new.inside.items reach.new.edge.items a) }
{
    let Mark::Open = meet(rules, a, reach)? else {
        return Ok(());
    };
    if !rules.takes(a) {
        return Ok(());
    }
    enter(rules, rules.arc(a).sink, reach)?;
    Ok(())
}

// Takes in the sinks of the arcs from a wire inside that may be taken.
fn spread_arcs<R: PathRules>(rules: &R, w: WireId, reach: &mut Reach) -> Result<(), AllocError>
    requires net { IsNet (R.network rules.now) (R.rules rules.now) }
    requires from { In reach.old.inside.items w }
    requires gathers { Gathers (R.network rules.now) (R.rules rules.now) reach.old }
    ensures gathers { Gathers (R.network rules.now) (R.rules rules.now) reach.new }
    ensures inside { Grows reach.old.inside.items reach.new.inside.items }
    ensures edge { Grows reach.old.edge.items reach.new.edge.items }
    ensures stay { OnOk result ((a : ℕ) → In ((R.network rules.now).wiring.outs w) a
        → StaysIn (R.network rules.now).wiring (rules_of (R.network rules.now) (R.rules rules.now))
        reach.new.inside.items reach.new.edge.items a) }
{
    let outs = rules.outs(w);
    for a in outs {
        spread_arc(rules, *a, reach)?;
    }
    Ok(())
}

// Takes in what links and arcs lead to from a wire inside.
pub(crate) fn spread<R: PathRules>(
    rules: &R,
    w: WireId,
    reach: &mut Reach,
) -> Result<(), AllocError>
    requires net { IsNet (R.network rules.now) (R.rules rules.now) }
    requires from { In reach.old.inside.items w }
    requires gathers { Gathers (R.network rules.now) (R.rules rules.now) reach.old }
    ensures gathers { Gathers (R.network rules.now) (R.rules rules.now) reach.new }
    ensures inside { Grows reach.old.inside.items reach.new.inside.items }
    ensures edge { Grows reach.old.edge.items reach.new.edge.items }
    ensures kept { OnOk result (IsKept (R.network rules.now).wiring (rules_of (R.network rules.now) (R.rules rules.now))
        reach.new.inside.items reach.new.edge.items w) }
{
    spread_links(rules, w, reach)?;
    spread_arcs(rules, w, reach)?;
    Ok(())
}
