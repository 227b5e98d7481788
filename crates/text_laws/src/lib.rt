//! Laws of what is printed: it is read again as it was. There is no code but laws, each the contract of a function with an
//! empty body.
#![tactic(auto)]

ghost use Rattle.config_grammar.specs.ConfigLines.{is_return, says, words_in, ConfigLine, OutsideLine};
ghost use Rattle.config_grammar.specs.ConfigPrint.{config_text};
ghost use Rattle.config_grammar.specs.ConfigText.{config_of, configuration_of, devices_of, items_of};
ghost use Rattle.config_grammar.specs.Sections.{heads_of, sections_of};
ghost use Rattle.design_checks.specs.LineChecks.{line_refusal};
ghost use Rattle.fabric.specs.Agree.{ArcsAgree, HasLine};
ghost use Rattle.fabric.specs.Graph.{Graph, GraphArc};
ghost use Rattle.fabric.specs.Image.{image_of};
ghost use Rattle.formed_laws.specs.Readers.{IsReadSide};
ghost use Rattle.patterns.specs.Bits.{Bits};
ghost use Rattle.records.specs.Config.{Config};
ghost use Rattle.records.specs.Side.{Side};
ghost use Rattle.side_form.specs.Side.{side_of};
ghost use Rattle.side_form.specs.SidePrint.{side_text};
ghost use Rattle.std.specs.Prelude.{[], false, filter, map, true, List, None, Ok, Some, ℕ, ◌≡◌, ◌↔◌, ◌∷◌};
ghost use Rattle.std.specs.List.{list_any};
ghost use Rattle.text_laws.specs.ConfigOrder.{IsInOrder};
ghost use Rattle.text_laws.specs.SameButLines.{has_lines, unnumbered, EachHasLines, SameButLines};
ghost use Rattle.text_laws.specs.Formed.{IsFormedSide, IsFormedText};
ghost use Rattle.text_laws.specs.Printed.{lined, printed_line, said_by, AreOneLine, IsReadConfig};
ghost use Rattle.texts.specs.Lines.{lines_of, Line};
ghost use Rattle.texts.specs.Parts.{no_line_feed};

/// A side file that is read is of the form `IsFormedSide`: names are names, there is one clock at most, and its lists have no
/// fault.
pub fn read_side_is_formed()
    ensures { (side : Side) → IsReadSide side → IsFormedSide side }
{}

/// A side file of that form, printed and read, is the same.
pub fn printed_side_is_read()
    ensures { (side : Side) → IsFormedSide side → side_of (side_text side) ≡ Ok side }
{}

/// Texts that are printed with a line feed behind each are the lines of what is printed.
pub fn printed_lines_are_lines()
    ensures { (texts : List (List ℕ)) → AreOneLine texts
        → map (λ line. line.text) (lines_of (lined texts)) ≡ texts }
{}

/// A line that says something says the same when it is printed, and is one line then.
pub fn printed_line_says_it()
    ensures same { (line other : Line) (said : ConfigLine) → no_line_feed line.text ≡ true
        → says line.text (words_in line) ≡ Some said → (said ≡ OutsideLine → ⊥)
        → other.text ≡ printed_line said → says other.text (words_in other) ≡ Some said }
    ensures one_line { (line : Line) (said : ConfigLine) → no_line_feed line.text ≡ true
        → says line.text (words_in line) ≡ Some said → (said ≡ OutsideLine → ⊥)
        → (no_line_feed (printed_line said) ≡ true) × (list_any is_return (printed_line said) ≡ false) }
{}

/// In a configuration that is read tiles stand in byte order of their names and the arcs of a tile in byte order of their
/// lines, none twice.
pub fn read_config_is_in_order()
    ensures { (c : Config) → IsReadConfig c → IsInOrder c }
{}

/// A configuration that is read is of the form `IsFormedText`: each line can stand in a text, tiles and arcs are in order, and
/// no more sections have lines than a text may have. The numbers of lines are not asked for.
pub fn read_config_is_formed()
    ensures { (c : Config) → IsReadConfig c → IsFormedText c }
{}

/// The text of a configuration of that form has its lines, in order, and nothing else.
pub fn printed_config_says_it()
    ensures { (c : Config) → IsFormedText c → map (λ item. item.says) (items_of (config_text c))
        ≡ map (λ said. Some said) (said_by c) }
{}

/// It names the device and has the heads of the configuration, and its sections are those with lines, but for the numbers
/// of lines.
pub fn printed_config_has_its_parts()
    ensures heads { (c : Config) → IsFormedText c → heads_of (items_of (config_text c)) ≡ c.heads }
    ensures device { (c : Config) → IsFormedText c → devices_of (items_of (config_text c)) ≡ c.device ∷ [] }
    ensures sections { (c : Config) → IsFormedText c
        → map unnumbered (sections_of (items_of (config_text c)))
        ≡ map unnumbered (filter has_lines c.tiles) }
{}

/// What the text of a configuration of that form says is the same configuration, but for the numbers of lines and sections
/// without lines.
pub fn printed_config_says_the_same()
    ensures { (c : Config) → IsFormedText c → SameButLines c (config_of c.device (items_of (config_text c))) }
{}

/// The text of a configuration of that form is read, without a fault and as the same configuration but for the numbers
/// of lines and sections without lines. What is read has lines in each section.
pub fn printed_config_is_read()
    ensures same { (c : Config) → IsFormedText c
        → (d : Config) × ((configuration_of (config_text c) ≡ Ok d) × SameButLines c d) }
    ensures lines { (c d : Config) → IsFormedText c → configuration_of (config_text c) ≡ Ok d
        → EachHasLines d }
{}

/// Configurations that are the same but for the numbers of lines and sections without lines leave the same image and have
/// lines for the same arcs, so their arcs agree with the same images.
pub fn the_same_but_for_lines()
    ensures image { (g : Graph) (c d : Config) → SameButLines c d → image_of g c ≡ image_of g d }
    ensures lines { (g : Graph) (c d : Config) (arc : GraphArc) → SameButLines c d → HasLine g c arc
        ↔ HasLine g d arc }
    ensures agree { (g : Graph) (image : Bits) (c d : Config) → SameButLines c d → ArcsAgree g image c
        ↔ ArcsAgree g image d }
{}

/// Where each line of a configuration names what is there, so does each line of one that is the same but for the numbers of
/// lines and has lines in each section. (A section without lines may be of a tile that isn't there.)
pub fn the_same_lines_are_not_refused()
    ensures { (g : Graph) (c d : Config) → SameButLines c d → EachHasLines d → line_refusal g c ≡ None
        → line_refusal g d ≡ None }
{}

/// Such configurations print the same bytes. So a text that is printed is the print of each configuration that it is read as.
pub fn the_same_but_for_lines_print_the_same()
    ensures same { (c d : Config) → SameButLines c d → config_text d ≡ config_text c }
    ensures printed { (c d : Config) → IsFormedText c → configuration_of (config_text c) ≡ Ok d
        → config_text d ≡ config_text c }
{}
