//! Labels of wires.

ghost use Rattle.std.specs.Prelude.{◌≡◌, ◌<◌, IfOk, None, false, get_or, length, map, option_map};
ghost use Rattle.circuit.specs.Circuits.{Circuit};
ghost use Rattle.circuit.specs.Pins.{Pin, pins as pins_of};
ghost use Rattle.circuit.specs.WellFormed.{IsWellFormed};
ghost use Rattle.domain_map.specs.Labels.{AreLabels};
ghost use Rattle.links.specs.Links.{IsClean};
ghost use Rattle.rr_ids.specs.Domains.{domain_of};
ghost use Rattle.wire_feeds.specs.Rows.{AreFeeds};
ghost use Rattle.words.specs.Members.{In};

use crate::domains::domains;
use crate::marks::marks;
use circuit_parts::Parts;
use pin_feeds::parts_of_outputs;
use rr_ids::{Domain, Id, WireId};
use std::alloc::{AllocError, Global};
use std::marker::Model;

/// For each wire its domain, and whether it is the wire of a pin of a named cell. Contracts see the lists of both.
#[derive(Drop)]
pub struct Labels {
    domains: Vec<Option<Domain>>,
    is_pin: Vec<bool>,
}

impl Model for Labels {
    ghost use Rattle.std.specs.Prelude.{map, option_map};
    ghost use Rattle.rr_ids.specs.Domains.{domain_of};
    ghost use Rattle.domain_map.specs.Labels.{WireLabels};

    ghost Value = { WireLabels };

    ghost view = { λ l. record { domains = map (option_map domain_of) l.domains.items; is_pin = l.is_pin.items } };
}

impl Labels {
    /// The labels of wires, where `feeds` has the feed of each wire. Takes time in proportion to wires, parts and pins.
    #[tactic(auto, using(crate::proofs::Labelled::labels_made))]
    pub fn new(
        alloc: Global,
        parts: &Parts<'_>,
        feeds: &[Option<WireId>],
    ) -> Result<Labels, AllocError>
        requires within { (p : Pin) → In (pins_of parts.now) p → p.wire < length feeds.now }
        ensures { IfOk result (λ l. (c : Circuit) → c.cells ≡ parts.now → IsClean c.routing → IsWellFormed c → AreFeeds c.routing feeds.now → AreLabels c l) }
    {
        let of_wires = parts_of_outputs(alloc, parts, feeds.len())?;
        let domains = domains(alloc, parts.sources(), &of_wires, feeds)?;
        let is_pin = marks(alloc, parts.pins(), feeds.len())?;
        Ok(Labels { domains, is_pin })
    }

    /// The domain of a wire; `None` exactly where it has none, as any wire that isn't there.
    pub fn of(&self, w: WireId) -> Option<Domain>
        ensures { option_map domain_of result ≡ get_or self.now.domains w None }
    {
        domain_of_wire(&self.domains, w)
    }

    /// Whether a wire is that of a pin of a named cell.
    pub fn is_pin(&self, w: WireId) -> bool
        ensures { result ≡ get_or self.now.is_pin w false }
    {
        let place = w.to_u32() as usize;
        place < self.is_pin.len() && self.is_pin[place]
    }
}

// The domain at the place of a wire.
fn domain_of_wire(domains: &[Option<Domain>], w: WireId) -> Option<Domain>
    ensures { option_map domain_of result ≡ get_or (map (option_map domain_of) domains.now) w None }
{
    let place = w.to_u32() as usize;
    if place >= domains.len() {
        return None;
    }
    domains[place]
}
