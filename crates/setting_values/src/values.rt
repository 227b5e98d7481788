//! Values of settings by their names.

ghost use Rattle.std.specs.Prelude.{◌≡◌, ◌<◌, length};
ghost use Rattle.std.specs.Option.{option_copied};
ghost use Rattle.fabric.specs.Values.{value_at as value_at_of};
ghost use Rattle.cram_image.specs.Image.{bits};
ghost use Rattle.named_graph.specs.Standing.{StandsInTiles};

use crate::enums::enum_value;
use cram_image::Image;
use named_graph::NamedGraph;
use rr_ids::{Name, TileId};

/// The value of the enum of a name in a tile; `None` exactly where there is no such enum, or it has no value.
pub fn value_at<'g, G: NamedGraph>(
    graph: &'g G,
    image: &Image,
    t: TileId,
    name: &Name,
) -> Option<&'g Name>
    requires stands { StandsInTiles (G.graph graph.now) }
    requires there { t < length (G.graph graph.now).grid.tiles }
    ensures { option_copied result ≡ value_at_of (G.graph graph.now) (bits image.now) t name.now }
{
    let setting = graph.enum_named(t, name)?;
    enum_value(image, graph.tile(t), setting)
}
