//! Laws of look-ups by names, each the contract of a function with an empty body.

ghost use Rattle.std.specs.Prelude.{◌≡◌, Err, None, Ok, Some};
ghost use Rattle.design_checks.specs.LineChecks.{line_refusal, LineFault};
ghost use Rattle.fabric.specs.Graph.{Graph};
ghost use Rattle.fabric.specs.Image.{image_of};
ghost use Rattle.patterns.specs.Bits.{Bits};
ghost use Rattle.records.specs.Config.{Config};
ghost use Rattle.text_image.specs.Images.{image_or_fault};
ghost use Rattle.text_image.specs.Statements.{DeviceGraphsStand};

/// The graph of a device meets what look-ups by names ask of a graph.
pub fn graph_of_device_stands()
    ensures { DeviceGraphsStand }
{}

/// A text whose lines no check refuses has its image, and else the check refuses the line that is named.
pub fn image_where_no_line_is_refused()
    ensures image { (g : Graph) (config : Config) (image : Bits) → image_or_fault g config ≡ Ok image
        → (line_refusal g config ≡ None) × (image ≡ image_of g config) }
    ensures fault { (g : Graph) (config : Config) (fault : LineFault) → image_or_fault g config ≡ Err fault
        → line_refusal g config ≡ Some fault.refusal }
{}
