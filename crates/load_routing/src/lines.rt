//! The image of a text, or the refusal of its first line that names what isn't there.

ghost use Rattle.std.specs.Prelude.{◌≡◌, MatchResult};
ghost use Rattle.answers.specs.Refusals as answers;
ghost use Rattle.cram_image.specs.Image.{bits};
ghost use Rattle.design_checks.specs.Checks.{Computed, Passes};
ghost use Rattle.design_checks.specs.LineChecks.{line_refusal};
ghost use Rattle.fabric.specs.Image.{image_of as image_in};
ghost use Rattle.load_routing.specs.Refused.{IsRefusal, IsRefusedBy};
ghost use Rattle.named_graph.specs.Standing.{StandsInTiles};
ghost use Rattle.report_text.specs.Refused.{refusal_view};
ghost use Rattle.text_image.specs.Faults.{fault_view, refusal_of};

use crate::LoadError;
use crate::error::refuse;
use config_text::Config;
use cram_image::Image;
use named_graph::NamedGraph;
use report_text::Refusal;
use std::alloc::Global;
use text_image::{ImageError, LineError, TextFault, image_of};

// The refusal of a line.
fn line_refused(fault: TextFault) -> Refusal<'static>
    ensures { refusal_view result ≡ (fault_view fault).refusal }
{
    let line = fault.line;
    match fault.error {
        LineError::UnknownTile => Refusal::UnknownTile(line),
        LineError::NoPlace => Refusal::NoPlace(line),
        LineError::UnknownSink => Refusal::UnknownSink(line),
        LineError::UnknownSource => Refusal::UnknownSource(line),
        LineError::UnknownSetting => Refusal::UnknownSetting(line),
        LineError::UnknownValue => Refusal::UnknownValue(line),
        LineError::WordLength => Refusal::WordLength(line),
        LineError::OutsideTile => Refusal::OutsideTile(line),
    }
}

/// The image of a text, where each line names what is in the graph; else the line of the refusal of the first that doesn't.
#[tactic(auto, using(crate::proofs::Imaged::image_made, crate::proofs::Imaged::line_fails, crate::proofs::Imaged::nothing_said))]
pub fn image_or_refused<G: NamedGraph>(
    alloc: Global,
    graph: &G,
    config: &Config,
) -> Result<Image, LoadError>
    requires { StandsInTiles (G.graph graph.now) }
    ensures { MatchResult result (λ image. (bits image ≡ image_in (G.graph graph.now) config.now) × Passes (Computed (line_refusal (G.graph graph.now) config.now)))
        (IsRefusedBy (Computed (line_refusal (G.graph graph.now) config.now))) }
{
    match image_of(alloc, graph, config) {
        Ok(image) => Ok(image),
        Err(ImageError::Fault(fault)) => Err(refuse(alloc, line_refused(fault))),
        Err(ImageError::Memory) => Err(LoadError::Memory),
    }
}
