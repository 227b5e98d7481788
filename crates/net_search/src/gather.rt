//! All that is reached from a net's tree is gathered.

ghost use Rattle.std.specs.Prelude.{◌≡◌, ℕ, ◌<◌, length, slice_index, OnOk};
ghost use Rattle.words.specs.Members.{In};
ghost use Rattle.net_links.specs.Nets.{IsNet};
ghost use Rattle.net_search.specs.Gathering.{AllIn, Ends, Gathers, IsAtRest};

use crate::meet::enter;
use crate::reach::Reach;
use crate::spread::spread;
use net_links::PathRules;
use rr_ids::WireId;
use std::alloc::AllocError;

// Takes in the roots of the tree.
fn begin<R: PathRules>(rules: &R, reach: &mut Reach) -> Result<(), AllocError>
    requires net { IsNet (R.network rules.now) (R.rules rules.now) }
    requires gathers { Gathers (R.network rules.now) (R.rules rules.now) reach.old }
    ensures gathers { Gathers (R.network rules.now) (R.rules rules.now) reach.new }
    ensures roots { OnOk result (AllIn (R.rules rules.now).roots reach.new.inside.items) }
{
    let roots = rules.roots();
    for w in roots {
        enter(rules, *w, reach)?;
    }
    Ok(())
}

// The wire at a place.
fn wire_at(wires: &[WireId], place: usize) -> WireId
    requires { place < length wires.now }
    ensures { result ≡ slice_index wires.now place }
{
    wires[place]
}

// Spreads from one wire after the other, those that are taken in meanwhile too.
fn close<R: PathRules>(rules: &R, reach: &mut Reach) -> Result<(), AllocError>
    requires net { IsNet (R.network rules.now) (R.rules rules.now) }
    requires gathers { Gathers (R.network rules.now) (R.rules rules.now) reach.old }
    requires roots { AllIn (R.rules rules.now).roots reach.old.inside.items }
    ensures gathers { Gathers (R.network rules.now) (R.rules rules.now) reach.new }
    ensures ends { OnOk result (Ends (R.network rules.now) (R.rules rules.now) reach.new) }
{
    let mut count: usize = 0;
    while count < reach.inside.len() {
        let w = wire_at(&reach.inside, count);
        spread(rules, w, reach)?;
        count += 1;
    }
    Ok(())
}

// Gathers all that is reached from the tree.
pub(crate) fn gather<R: PathRules>(rules: &R, reach: &mut Reach) -> Result<(), AllocError>
    requires net { IsNet (R.network rules.now) (R.rules rules.now) }
    requires rest { IsAtRest (R.network rules.now).wiring.wires reach.old }
    ensures gathers { Gathers (R.network rules.now) (R.rules rules.now) reach.new }
    ensures ends { OnOk result (Ends (R.network rules.now) (R.rules rules.now) reach.new) }
{
    begin(rules, reach)?;
    close(rules, reach)?;
    Ok(())
}
