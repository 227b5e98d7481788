//! Arcs that differ from the lines of a text.

ghost use Rattle.std.specs.Prelude.{◌≡◌, ◌<◌, ◌≤◌, ℕ, IfOk, IfSome, MatchOption, Some, length, map, option_map, slice_get, if◌then◌else◌};
ghost use Rattle.arc_lines.specs.Differing.{DiffersBelow, IsLeastMux, IsRefusedMux, differs_by, lower_mux};
ghost use Rattle.fabric.specs.Agree.{ArcsAgree};
ghost use Rattle.fabric.specs.Links.{is_chosen};
ghost use Rattle.patterns.specs.Bits.{Bits};
ghost use Rattle.patterns.specs.Fits.{has_plain_bit as has_plain_bit_of};

use crate::least::lower;
use crate::lines::line_arcs;
use crate::marks::marks_of;
use crate::named::ArcNames;
use config_text::Config;
use routing_graph::RoutingGraph;
use rr_ids::{ArcId, Id, MuxId};
use std::alloc::{AllocError, Global};
use text_cut::PatternBit;

// Whether some bit of a pattern is plain.
fn has_plain_bit(pattern: &[PatternBit]) -> bool
    ensures { result ≡ has_plain_bit_of pattern.now }
{
    pattern.iter().any(|p| p.set)
}

// Whether an arc differs that is chosen or not, and has a line or not.
fn differs<G: RoutingGraph>(graph: &G, a: ArcId, chosen: bool, lined: bool) -> bool
    requires { a < length (G.graph graph.now).arcs }
    ensures { option_map (λ arc. differs_by chosen lined (has_plain_bit_of arc.arc.bits)) (slice_get (G.graph graph.now).arcs a) ≡ Some result }
{
    let plain = has_plain_bit(graph.pattern(a));
    if lined { !chosen } else { chosen && plain }
}

// The lower of a mux that may be there and the mux of an arc that differs; of one that doesn't, the mux isn't looked at.
fn lower_if<G: RoutingGraph>(
    graph: &G,
    least: Option<MuxId>,
    differs: bool,
    m: MuxId,
) -> Option<MuxId>
    requires least { IfSome least (λ k. k < length (G.graph graph.now).muxes) }
    requires m { m < length (G.graph graph.now).muxes }
    ensures is { result ≡ (if differs then Some (lower_mux (G.graph graph.now) least m) else least) }
    ensures below { IfSome result (λ k. k < length (G.graph graph.now).muxes) }
{
    if differs {
        return Some(lower(graph, least, m));
    }
    least
}

// The mux of the least name of those with an arc that differs.
fn least_differing<G: RoutingGraph>(graph: &G, chosen: &[bool], lined: &[bool]) -> Option<MuxId>
    requires chosen { length chosen.now ≡ length (G.graph graph.now).arcs }
    requires lined { length lined.now ≡ length (G.graph graph.now).arcs }
    ensures { IsLeastMux (G.graph graph.now) (DiffersBelow (G.graph graph.now) chosen.now lined.now (length (G.graph graph.now).arcs)) result }
{
    graph.is_of_device();
    let mut least = None;
    for a in 0..graph.arcs() {
        let id = ArcId::from_u32(a);
        let differs = differs(graph, id, chosen[a as usize], lined[a as usize]);
        least = lower_if(graph, least, differs, graph.arc(id).mux);
    }
    least
}

/// The mux of the least name, by tile, then by sink, at which an arc is chosen, has a plain bit and no line, or has a line and
/// isn't chosen; `None` exactly where the arcs of the text and of the image agree. `chosen` says of each arc whether it is chosen,
/// as `chosen_links::chosen_arcs` does. Each line is looked up once; the rest takes time in proportion to the arcs.
pub fn arcs_differ<G: ArcNames>(
    alloc: Global,
    graph: &G,
    config: &Config,
    chosen: &[bool],
) -> Result<Option<MuxId>, AllocError>
    requires { length chosen.now ≡ length (G.graph graph.now).arcs }
    ensures { (image : Bits) → chosen.now ≡ map (is_chosen (G.graph graph.now) image) (G.graph graph.now).arcs
        → IfOk result (λ found. MatchOption found (ArcsAgree (G.graph graph.now) image config.now) (IsRefusedMux (G.graph graph.now) image config.now)) }
{
    graph.is_of_device();
    let lines = line_arcs(alloc, graph, config)?;
    let lined = marks_of(alloc, graph.arcs(), &lines)?;
    Ok(least_differing(graph, chosen, &lined))
}
