//! The toggle as it is printed, and a worked configuration: they meet what the laws on printing ask.
#![tactic(auto)]

ghost use Rattle.config_grammar.specs.ConfigPrint.{config_text};
ghost use Rattle.config_grammar.specs.ConfigText.{configuration_of, items_of};
ghost use Rattle.config_grammar.specs.Examples.{worked_config, written_text};
ghost use Rattle.config_grammar.specs.Sections.{heads_of};
ghost use Rattle.design_checks.specs.LineChecks.{line_refusal};
ghost use Rattle.fabric_laws.specs.PlainGraph.{graph_of};
ghost use Rattle.fabric.specs.Image.{image_of};
ghost use Rattle.mini.specs.MiniA.{mini_a};
ghost use Rattle.mini.specs.Toggle.{toggle, toggle_side};
ghost use Rattle.records.specs.Config.{Config};
ghost use Rattle.side_form.specs.Side.{side_of};
ghost use Rattle.side_form.specs.SidePrint.{side_text};
ghost use Rattle.std.specs.Prelude.{map, None, Ok, Some, ◌≡◌};
ghost use Rattle.text_laws.specs.Formed.{IsFormedSide, IsFormedText};
ghost use Rattle.text_laws.specs.Printed.{said_by, IsReadConfig};
ghost use Rattle.text_laws.specs.SameButLines.{SameButLines};

/// The toggle's side file is read as it is printed.
pub fn printed_toggle()
    ensures { side_of (side_text toggle_side) ≡ Ok toggle_side }
{}

/// The toggle, whose lines have no numbers, has the form of a configuration that is read, so its text is read as it but for
/// the numbers of lines.
pub fn toggle_is_formed()
    ensures side { IsFormedSide toggle_side }
    ensures config { IsFormedText toggle }
    ensures again { (d : Config) × ((configuration_of (config_text toggle) ≡ Ok d) × SameButLines toggle d) }
{}

/// What the toggle's text is read as leaves the image of the toggle, and none of its lines is refused.
pub fn toggle_is_read_alike()
    ensures image { (d : Config) → configuration_of (config_text toggle) ≡ Ok d
        → image_of (graph_of mini_a) d ≡ image_of (graph_of mini_a) toggle }
    ensures lines { (d : Config) → configuration_of (config_text toggle) ≡ Ok d
        → line_refusal (graph_of mini_a) d ≡ None }
{}

/// A worked configuration is one that is read, its text says it, and is read as it.
pub fn printed_config()
    ensures read { IsReadConfig worked_config }
    ensures says { map (λ item. item.says) (items_of (config_text worked_config))
        ≡ map (λ said. Some said) (said_by worked_config) }
    ensures heads { heads_of (items_of written_text) ≡ worked_config.heads }
    ensures again { (d : Config) × ((configuration_of (config_text worked_config) ≡ Ok d)
        × SameButLines worked_config d) }
{}
