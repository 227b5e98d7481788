//! The most bits of an arc that fits, for each mux.

ghost use Rattle.std.specs.Prelude.{◌≡◌, ◌<◌, ◌==◌, ◌&&◌, ℕ, IfOk, get_or, length, map, max, vec_len, if◌then◌else◌};
ghost use Rattle.chosen_links.specs.Fitting.{AreMost, RaisedFor, fits_in};
ghost use Rattle.patterns.specs.Bits.{Bits};

use routing_graph::RoutingGraph;
use rr_ids::{ArcId, Id, MuxId};
use std::alloc::{AllocError, Global};

// Raises the number of a mux to the bits of an arc of it, if the arc fits.
fn raise(most: &mut Vec<usize>, m: MuxId, fits: bool, bits: usize)
    requires { m < vec_len most.old }
    ensures long { vec_len most.new ≡ vec_len most.old }
    ensures most { (k : ℕ) → k < vec_len most.old
        → get_or most.new.items k 0 ≡ (if (m == k) && fits then max bits (get_or most.old.items k 0) else get_or most.old.items k 0) }
{
    let place = m.to_u32() as usize;
    if fits {
        most[place] = bits.max(most[place]);
    }
}

// Raises the number of the mux of an arc.
fn raise_for<G: RoutingGraph>(graph: &G, most: &mut Vec<usize>, a: ArcId, fits: bool)
    requires there { a < length (G.graph graph.now).arcs }
    requires long { vec_len most.old ≡ length (G.graph graph.now).muxes }
    ensures long { vec_len most.new ≡ vec_len most.old }
    ensures most { RaisedFor (G.graph graph.now) a fits most.old.items most.new.items }
{
    graph.is_of_device();
    raise(most, graph.arc(a).mux, fits, graph.pattern(a).len());
}

/// For each mux the most bits of an arc of it that fits, or 0 where none does.
pub(crate) fn most_bits<G: RoutingGraph>(
    alloc: Global,
    graph: &G,
    fitting: &[bool],
) -> Result<Vec<usize>, AllocError>
    requires { length fitting.now ≡ length (G.graph graph.now).arcs }
    ensures long { IfOk result (λ v. vec_len v ≡ length (G.graph graph.now).muxes) }
    ensures most { (image : Bits) → fitting.now ≡ map (fits_in image) (G.graph graph.now).arcs
        → IfOk result (λ v. AreMost (G.graph graph.now) image v.items) }
{
    let mut most = vec![in alloc; 0usize; graph.muxes() as usize]?;
    for a in 0..graph.arcs() {
        raise_for(graph, &mut most, ArcId::from_u32(a), fitting[a as usize]);
    }
    Ok(most)
}
