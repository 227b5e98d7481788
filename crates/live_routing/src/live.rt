//! Live routings.

ghost use Rattle.std.specs.Prelude.{◌≡◌, ℕ, ◌↔◌, IfOk, MatchOption, MatchResult};
ghost use Rattle.std.specs.Ordering.{nat_cmp};
ghost use Rattle.words.specs.Members.{In};
ghost use Rattle.words.specs.Twice.{HasNoneTwice};
ghost use Rattle.links.specs.Links.{Below, Counting, Drives, Fed, Feeds, IsClean};
ghost use Rattle.fabric.specs.Agree.{ArcsAgree};
ghost use Rattle.fabric.specs.InOrder.{IsRising};
ghost use Rattle.fabric.specs.Links.{routing_of};
ghost use Rattle.cram_image.specs.Image.{bits};
ghost use Rattle.wire_feeds.specs.Rows.{AreFeeds};
ghost use Rattle.live_routing.specs.Live.{live_routing};
ghost use Rattle.live_routing.specs.Refused.{Refuses};

use crate::LiveError;
use crate::join::join;
use arc_lines::{ArcNames, arcs_differ};
use chosen_links::{all_links, chosen_arcs};
use config_text::Config;
use cram_image::Image;
use routing_graph::RoutingGraph;
use rr_ids::WireId;
use std::alloc::{AllocError, Global};
use std::marker::Model;
use wire_links::WireLinks;

/// An image over a graph whose links are clean. Contracts see the graph, the image as a list of its bits, and what conducts, with
/// its links in order; calls speak of what conducts in the image (`live_routing`).
pub struct Live<'a, G: RoutingGraph> {
    graph: &'a G,
    image: Image,
    links: WireLinks,
}

impl<'a, G: RoutingGraph> Model for Live<'a, G> {
    ghost use Rattle.live_routing.specs.Live.{IsLive, LiveRouting};

    ghost Value = { LiveRouting };

    ghost view = { λ l. record { graph = G.graph l.graph.now; image = l.image; routing = l.links } };

    ghost invariant = { λ l. IsLive (G.graph l.graph.now) l.image l.links };
}

impl<G: RoutingGraph> Drop for Live<'_, G> {
    fn drop(self) {
        let Live {
            graph: _,
            image: _,
            links: _,
        } = self;
    }
}

impl<'a, G: ArcNames> Live<'a, G> {
    /// The routing of an image and a text. `ArcDiffers` exactly where an arc is chosen, has a plain bit and no line, or has a line and
    /// isn't chosen, with the mux of the least name; else `Contested` exactly where two counting drivers lead into a wire, or one into
    /// a cell output. It asks nothing of how the image was made. Takes time in proportion to the graph and the text.
    pub fn new(
        alloc: Global,
        graph: &'a G,
        config: &Config,
        image: Image,
    ) -> Result<Live<'a, G>, LiveError>
        ensures graph { IfOk result (λ live. live.graph ≡ G.graph graph.now) }
        ensures image { IfOk result (λ live. live.image ≡ image) }
        ensures answer { MatchResult result
            (λ _. ArcsAgree (G.graph graph.now) (bits image) config.now × IsClean (routing_of (G.graph graph.now) (bits image)))
            (Refuses (G.graph graph.now) (bits image) config.now) }
    {
        graph.is_of_device();
        let chosen = chosen_arcs(alloc, graph, &image)?;
        if let Some(m) = arcs_differ(alloc, graph, config, &chosen)? {
            return Err(LiveError::ArcDiffers(m));
        }
        let links = all_links(alloc, graph, &chosen)?;
        let links = join(alloc, graph.wires(), &links, graph.outputs())?;
        Ok(Live {
            graph,
            image,
            links,
        })
    }
}

impl<'a, G: RoutingGraph> Live<'a, G> {
    /// The graph.
    pub fn graph(&self) -> &'a G
        ensures { G.graph result.now ≡ self.now.graph }
    {
        self.graph
    }

    /// The image.
    pub fn image(&self) -> &Image
        ensures { result.now ≡ self.now.image }
    {
        &self.image
    }

    /// The drivers of a wire, with or without a feed, in order.
    pub fn drivers(&self, w: WireId) -> &[WireId]
        ensures all { (x : ℕ) → In result.now x ↔ Drives (live_routing self.now) x w }
        ensures order { IsRising nat_cmp result.now }
    {
        self.links.drivers(w)
    }

    /// The wires to which links lead from a wire, in order.
    pub fn next(&self, w: WireId) -> &[WireId]
        ensures all { (x : ℕ) → In result.now x ↔ Drives (live_routing self.now) w x }
        ensures order { IsRising nat_cmp result.now }
    {
        self.links.next(w)
    }

    /// The driver of a wire that counts, since it has a feed; it is the only one, for the routing is clean.
    pub fn driver(&self, w: WireId) -> Option<WireId>
        ensures driver { MatchOption result ((x : ℕ) → Counting (live_routing self.now) x w → ⊥) (λ x. Counting (live_routing self.now) x w) }
        ensures clean { IsClean (live_routing self.now) }
    {
        self.links.driver(w)
    }

    /// The cell output that feeds a wire; it is the only one, for the routing is clean.
    pub fn feed(&self, w: WireId) -> Option<WireId>
        ensures feed { MatchOption result (Fed (live_routing self.now) w → ⊥) (λ c. Feeds (live_routing self.now) c w) }
        ensures clean { IsClean (live_routing self.now) }
    {
        self.links.feed(w)
    }

    /// For each wire the cell output that feeds it; it is the only one, for the routing is clean.
    pub fn feeds(&self) -> &[Option<WireId>]
        ensures feeds { AreFeeds (live_routing self.now) result.now }
        ensures clean { IsClean (live_routing self.now) }
    {
        self.links.feeds()
    }

    /// A wire and all wires that are reached from it along links, each once, in order of distance. It costs what it comes to.
    pub fn below(&self, alloc: Global, w: WireId) -> Result<Vec<WireId>, AllocError>
        ensures all { IfOk result (λ v. (x : ℕ) → In v.items x ↔ Below (live_routing self.now) w x) }
        ensures once { IfOk result (λ v. HasNoneTwice v.items) }
    {
        self.links.below(alloc, w)
    }
}
