//! The arcs that the labels name, from the best arc out of the tree on.

ghost use Rattle.std.specs.Prelude.{◌≡◌, ◌<◌, IfOk};
ghost use Rattle.net_links.specs.Nets.{IsNet};
ghost use Rattle.pin_search.specs.Labels.{far, first_in};
ghost use Rattle.pin_search.specs.Fronts.{Ends, Follows};

use crate::front::Front;
use crate::wires::label_at;
use net_links::PathRules;
use rr_ids::{ArcId, Id, WireId};
use std::alloc::{AllocError, Global};

// Follows the labels to the pin.
pub(crate) fn follow<R: PathRules>(
    alloc: Global,
    rules: &R,
    pin: WireId,
    front: &Front,
) -> Result<Vec<ArcId>, AllocError>
    requires net { IsNet (R.network rules.now) (R.rules rules.now) }
    requires ends { Ends (R.network rules.now) (R.rules rules.now) pin front.now }
    requires near { front.now.best < far }
    ensures { IfOk result (λ v. Follows (R.network rules.now) front.now.labels.items (first_in front.now.best) v.items) }
{
    let mut arcs: Vec<ArcId> = Vec::new(alloc);
    let mut label = front.best;
    'walk: while label.first() > 0 {
        let a = ArcId::from_u32((label.first() - 1) as u32);
        arcs.push(a)?;
        label = label_at(&front.labels, rules.arc(a).sink);
    }
    Ok(arcs)
}
