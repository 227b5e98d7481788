//! Laws of texts that are repaired, each the contract of a function with an empty body: the line of an arc, paths
//! that are added one after the other, and routes that are ripped up.
#![tactic(auto)]

ghost use Rattle.fabric.specs.Agree.{ArcsAgree, HasLine};
ghost use Rattle.fabric.specs.Device.{Device};
ghost use Rattle.fabric.specs.Graph.{Graph, GraphArc};
ghost use Rattle.fabric.specs.GraphOf.{IsGraph};
ghost use Rattle.fabric.specs.Image.{image_of};
ghost use Rattle.fabric.specs.Values.{value_at, word_at};
ghost use Rattle.layout_laws.specs.MoreLines.{HasOneLineMore, StandsForArc};
ghost use Rattle.layout_laws.specs.Named.{NamesOnce};
ghost use Rattle.layout_laws.specs.PathsKept.{PathsKept};
ghost use Rattle.layout_laws.specs.RestKept.{RestKept};
ghost use Rattle.circuit.specs.Circuits.{Circuit};
ghost use Rattle.links.specs.Links.{IsClean};
ghost use Rattle.patterns.specs.Bits.{Bits};
ghost use Rattle.records.specs.Config.{Config};
ghost use Rattle.repair.specs.Added.{with_arc, with_arcs};
ghost use Rattle.repair.specs.Layouts.{ArePaths, configured, Layout, NetPath};
ghost use Rattle.repair.specs.Lines.{line_of_arc, TileLine, with_arc_line};
ghost use Rattle.repair.specs.Plain.{IsPlain, unknown_bits};
ghost use Rattle.repair.specs.Ripping.{IsRest};
ghost use Rattle.repair.specs.Turns.{routing};
ghost use Rattle.repair.specs.Usable.{IsRoutable};
ghost use Rattle.repair_laws.specs.Ready.{IsReady};
ghost use Rattle.std.specs.Prelude.{List, Some, ◌↔◌, ◌≡◌, ◌⊎◌, ℕ};
ghost use Rattle.upset.specs.Configured.{Configured};
ghost use Rattle.upset.specs.Safe.{IsSafe};
ghost use Rattle.words.specs.Members.{In};

/// Each arc has a line, and the line stands for it.
pub fn line_stands_for_its_arc()
    ensures { (device : Device) (g : Graph) (a : GraphArc) → IsGraph device g → NamesOnce device → In g.arcs a
        → (l : TileLine) × ((line_of_arc g a ≡ Some l) × StandsForArc g l a) }
{}

/// The line of an arc that the routing takes writes the arc's pattern, wherever it stands in the text.
pub fn line_anywhere_writes_its_pattern()
    ensures image { (device : Device) (k : Configured) (config more : Config) (a : GraphArc) (l : TileLine)
        → IsGraph device k.graph
        → k.image ≡ image_of k.graph config → ArcsAgree k.graph k.image config → IsRoutable k config a
        → StandsForArc k.graph l a → HasOneLineMore l config.tiles more.tiles
        → image_of k.graph more ≡ with_arc k.image a }
    ensures lines { (device : Device) (g : Graph) (config more : Config) (a : GraphArc) (l : TileLine)
        → IsGraph device g
        → StandsForArc g l a → HasOneLineMore l config.tiles more.tiles
        → (c : GraphArc) → HasLine g more c ↔ (HasLine g config c ⊎ (c ≡ a)) }
{}

/// The line of an arc that the routing takes can be put in its place: the text has this line more, and no other
/// difference.
pub fn line_is_put_in_its_place()
    ensures { (device : Device) (k : Configured) (config : Config) (a : GraphArc) → IsGraph device k.graph
        → NamesOnce device
        → ArcsAgree k.graph k.image config → IsRoutable k config a
        → (l : TileLine) × (StandsForArc k.graph l a
        × HasOneLineMore l config.tiles (with_arc_line k.graph config a).tiles) }
{}

/// Settings read the same once patterns of arcs of plain muxes were written.
pub fn settings_read_the_same()
    ensures words { (g : Graph) (config : Config) (image : Bits) (arcs : List GraphArc)
        → ((a : GraphArc) → In arcs a → In g.arcs a × IsPlain g config a.mux)
        → (tile : ℕ) (name : List ℕ) → word_at g (with_arcs image arcs) tile name
        ≡ word_at g image tile name }
    ensures enums { (g : Graph) (config : Config) (image : Bits) (arcs : List GraphArc)
        → ((a : GraphArc) → In arcs a → In g.arcs a × IsPlain g config a.mux)
        → (tile : ℕ) (name : List ℕ) → value_at g (with_arcs image arcs) tile name
        ≡ value_at g image tile name }
{}

/// Safe by construction: paths of nets that are added one after the other, each of arcs that are usable in what those
/// before it left, keep the image clean and safe and the arcs agreeing.
pub fn paths_keep()
    ensures { (device : Device) (read : Circuit) (y : Layout) (paths : List NetPath) → NamesOnce device
        → IsReady device (configured y) → IsSafe (configured y)
        → ArcsAgree y.graph (configured y).image y.config → ArePaths read y paths → PathsKept y paths }
{}

/// A text without the routes of ripped nets stays clean and agreeing, and all other nets feed what they fed.
pub fn ripping_keeps()
    ensures { (device : Device) (k : Configured) (nets : List ℕ) (config rest : Config)
        → IsGraph device k.graph → IsClean (routing k)
        → k.image ≡ image_of k.graph config → ArcsAgree k.graph k.image config
        → IsRest (In nets) config k rest → RestKept k nets config rest }
{}
