//! The image of a text.

ghost use Rattle.std.specs.Prelude.{◌≡◌};
ghost use Rattle.words.specs.OrMemory.{OrMemory};
ghost use Rattle.cram_image.specs.Image.{bits};
ghost use Rattle.named_graph.specs.Standing.{StandsInTiles};
ghost use Rattle.text_image.specs.Images.{error_view, image_or_fault, no_bits};

use crate::errors::ImageError;
use crate::lines::first_fault;
use crate::writes::write_sections;
use config_text::Config;
use cram_image::Image;
use named_graph::NamedGraph;
use std::alloc::Global;

// An image without bits.
fn empty(alloc: Global) -> Image
    ensures { bits result ≡ no_bits }
{
    Image::new(alloc)
}

/// The set of device bits that the lines of a text leave, section by section as it lists them, in each section arcs, words,
/// enums, then raw bits; `Fault` exactly where a line names what isn't in the graph, with the first such line.
pub fn image_of<G: NamedGraph>(
    alloc: Global,
    graph: &G,
    config: &Config,
) -> Result<Image, ImageError>
    requires { StandsInTiles (G.graph graph.now) }
    ensures { OrMemory bits error_view result (image_or_fault (G.graph graph.now) config.now) }
{
    if let Some(fault) = first_fault(graph, config) {
        return Err(ImageError::Fault(fault));
    }
    let mut image = empty(alloc);
    write_sections(graph, &mut image, config.tiles.as_slice())?;
    Ok(image)
}
