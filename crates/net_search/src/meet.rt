//! A wire is taken in, or met from inside.

ghost use Rattle.std.specs.Prelude.{◌≡◌, ◌<◌, OnOk, IfOk};
ghost use Rattle.words.specs.Members.{In};
ghost use Rattle.paths.specs.Wiring.{IsArcOf};
ghost use Rattle.net_links.specs.Nets.{IsNet};
ghost use Rattle.net_search.specs.Marks.{IsMet, asked_mark};
ghost use Rattle.net_search.specs.Gathering.{Gathers, Grows, IsReached};

use crate::reach::{Mark, Reach, mark_at, set_mark};
use net_links::PathRules;
use rr_ids::{ArcId, WireId};
use std::alloc::AllocError;

// Takes a wire in, to which a path leads, if it isn't inside.
pub(crate) fn enter<R: PathRules>(rules: &R, w: WireId, reach: &mut Reach) -> Result<(), AllocError>
    requires wire { w < (R.network rules.now).wiring.wires }
    requires path { IsReached (R.network rules.now) (R.rules rules.now) w }
    requires gathers { Gathers (R.network rules.now) (R.rules rules.now) reach.old }
    ensures gathers { Gathers (R.network rules.now) (R.rules rules.now) reach.new }
    ensures inside { Grows reach.old.inside.items reach.new.inside.items }
    ensures edge { Grows reach.old.edge.items reach.new.edge.items }
    ensures entered { OnOk result (In reach.new.inside.items w) }
{
    if let Mark::Inside = mark_at(&reach.marks, w) {
        return Ok(());
    }
    reach.inside.push(w)?;
    set_mark(reach, w, Mark::Inside);
    Ok(())
}

// The mark of a wire that an arc leads to: whether it may be entered.
fn asked<R: PathRules>(rules: &R, w: WireId) -> Mark
    requires { w < (R.network rules.now).wiring.wires }
    ensures { result ≡ asked_mark ((R.rules rules.now).enterable w) }
{
    if rules.enterable(w) {
        Mark::Open
    } else {
        Mark::Shut
    }
}

// Marks the sink of an arc from inside, if this is the first that is met. Gives the mark.
pub(crate) fn meet<R: PathRules>(rules: &R, a: ArcId, reach: &mut Reach) -> Result<Mark, AllocError>
    requires net { IsNet (R.network rules.now) (R.rules rules.now) }
    requires arc { IsArcOf (R.network rules.now).wiring a }
    requires from { In reach.old.inside.items ((R.network rules.now).wiring.source a) }
    requires gathers { Gathers (R.network rules.now) (R.rules rules.now) reach.old }
    ensures gathers { Gathers (R.network rules.now) (R.rules rules.now) reach.new }
    ensures inside { Grows reach.old.inside.items reach.new.inside.items }
    ensures edge { Grows reach.old.edge.items reach.new.edge.items }
    ensures met { IfOk result (λ mark. IsMet reach.new.marks.items ((R.network rules.now).wiring.sink a) mark) }
{
    let w = rules.arc(a).sink;
    let mark = mark_at(&reach.marks, w);
    let Mark::Far = mark else {
        return Ok(mark);
    };
    reach.edge.push(w)?;
    let mark = asked(rules, w);
    set_mark(reach, w, mark);
    Ok(mark)
}
