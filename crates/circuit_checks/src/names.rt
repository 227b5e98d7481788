//! Parts, pins and wires by number, as reports print them.

ghost use Rattle.std.specs.Prelude.{◌≡◌, option_map, slice_get};
ghost use Rattle.circuit.specs.Parts.{sources as sources_of};
ghost use Rattle.circuit.specs.Pins.{pins as pins_in};
ghost use Rattle.report_text.specs.Names.{part_view, pin_view, wire_view};

use cell_parts::{Pin, Source};
use circuit_parts::{Parts, PinId, SourceId};
use load_routing::wire_at;
use report_text::{PartName, PinName, Wire};
use routing_graph::RoutingGraph;
use rr_ids::{Id, WireId};

// A part by its name.
fn name_of<'s>(source: &'s Source<'_>) -> PartName<'s>
    ensures { part_view result ≡ source.now.part }
{
    PartName {
        cell: source.cell.bytes(),
        part: source.part,
    }
}

/// The part with a number by its name.
pub(crate) fn part_name<'s>(parts: &'s Parts<'_>, number: SourceId) -> Option<PartName<'s>>
    ensures { option_map part_view result ≡ option_map (λ s. s.part) (slice_get (sources_of parts.now) number) }
{
    match parts.sources().get(number.to_u32() as usize) {
        Some(source) => Some(name_of(source)),
        None => None,
    }
}

// A pin by its name.
fn pin_of<'s>(pin: &'s Pin<'_>) -> PinName<'s>
    ensures { pin_view result ≡ pin.now.ref }
{
    PinName {
        part: PartName {
            cell: pin.cell.bytes(),
            part: pin.part,
        },
        pin: pin.pin,
    }
}

/// The pin with a number by its name.
pub(crate) fn pin_name<'s>(parts: &'s Parts<'_>, number: PinId) -> Option<PinName<'s>>
    ensures { option_map pin_view result ≡ option_map (λ p. p.ref) (slice_get (pins_in parts.now) number) }
{
    match parts.pins().get(number.to_u32() as usize) {
        Some(pin) => Some(pin_of(pin)),
        None => None,
    }
}

/// The wire with a number by its name.
#[tactic(auto, using(crate::proofs::Named::wire_beyond))]
pub(crate) fn wire_name<G: RoutingGraph>(graph: &G, number: WireId) -> Option<Wire<'_>>
    ensures { option_map wire_view result ≡ slice_get (G.graph graph.now).wires number }
{
    if number.to_u32() >= graph.wires() {
        return None;
    }
    Some(wire_at(graph, number))
}
