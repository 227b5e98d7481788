//! The links of a graph, joined.

ghost use Rattle.std.specs.Prelude.{◌≡◌, ◌<◌, ◌^◌, ℕ, IfOk, IsErrOf, MatchResult, length};
ghost use Rattle.words.specs.Members.{In};
ghost use Rattle.fabric.specs.InOrder.{InOrderOnce};
ghost use Rattle.link_order.specs.Order.{AreWithin, link_cmp};
ghost use Rattle.links.specs.Links.{IsClean};
ghost use Rattle.wire_links.specs.Refused.{as_routing};
ghost use Rattle.live_routing.specs.Refused.{Contests};

use crate::LiveError;
use link_order::Link;
use rr_ids::WireId;
use std::alloc::Global;
use wire_links::{LinksError, WireLinks};

// The most links that are joined.
const MOST_LINKS: usize = 4_294_967_295;

/// Joins links; `Contested` exactly where they aren't clean. More links than a number of 32 bits counts are answered as
/// want of memory.
pub(crate) fn join(
    alloc: Global,
    wires: u32,
    links: &[Link],
    outputs: &[WireId],
) -> Result<WireLinks, LiveError>
    requires within { AreWithin wires links.now }
    requires outputs { (c : ℕ) → In outputs.now c → c < wires }
    ensures links { IfOk result (λ r. InOrderOnce link_cmp links.now r.links) }
    ensures outputs { IfOk result (λ r. r.outputs ≡ outputs.now) }
    ensures answer { MatchResult result (λ _. IsClean (as_routing links.now outputs.now)) (Contests (as_routing links.now outputs.now)) }
{
    if links.len() > MOST_LINKS {
        return Err(LiveError::Memory);
    }
    match WireLinks::new(alloc, wires, links, outputs) {
        Ok(joined) => Ok(joined),
        Err(LinksError::Contested(contest)) => Err(LiveError::Contested(contest)),
        Err(LinksError::Memory) => Err(LiveError::Memory),
    }
}
