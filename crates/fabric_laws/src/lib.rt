//! Laws of the routing fabric, each the contract of a function with an empty body.
#![tactic(auto)]

ghost use Rattle.fabric.specs.Agree.{ArcsAgree};
ghost use Rattle.fabric.specs.Chosen.{best_fits};
ghost use Rattle.fabric.specs.Device.{Device};
ghost use Rattle.fabric.specs.Graph.{Graph, GraphArc, GraphMux};
ghost use Rattle.fabric.specs.GraphOf.{IsGraph};
ghost use Rattle.fabric.specs.Image.{image_of, writes_of};
ghost use Rattle.fabric.specs.Links.{is_chosen, link_of, links_of};
ghost use Rattle.fabric.specs.MuxBits.{bits_named, is_mux_bit};
ghost use Rattle.fabric.specs.WireNames.{IsWireName, WireName};
ghost use Rattle.fabric.specs.WireOfName.{wire_of_name};
ghost use Rattle.fabric_laws.specs.PlainAgree.{arcs_agree};
ghost use Rattle.fabric_laws.specs.PlainGraph.{graph_of};
ghost use Rattle.fabric_laws.specs.Stands.{ArcStands, HasArc, MuxStands, NamesArc};
ghost use Rattle.fabric_laws.specs.Written.{IsUnwritten, LastWritten, bit_writes};
ghost use Rattle.links.specs.Links.{Link};
ghost use Rattle.patterns.specs.Bits.{Bits, DeviceBit, PatternBit};
ghost use Rattle.patterns.specs.Fits.{fits};
ghost use Rattle.records.specs.Config.{Config};
ghost use Rattle.records.specs.Database.{Arc, Mux};
ghost use Rattle.records.specs.Profile.{Rules};
ghost use Rattle.std.specs.Prelude.{Bool, List, false, length, true, ◌≡◌, ◌↔◌, ◌≤◌, ◌⊎◌, ℕ};
ghost use Rattle.words.specs.Members.{In};

/// Each name stands for exactly one thing at each place: what `wire_of_name` computes.
pub fn each_name_has_one_wire()
    ensures { (place : ℕ × ℕ) (name : List ℕ) (rules : Rules) (wire : WireName)
        → IsWireName place name rules wire ↔ (wire_of_name place name rules ≡ wire) }
{}

/// Those of a list that are chosen fit, and have as many bits as any of it that fits.
pub fn chosen_is_longest_that_fits<X>()
    ensures { (pattern : X → List PatternBit) (image : Bits) (origin : DeviceBit) (xs : List X) (x : X)
        → In (best_fits pattern image origin xs) x
        ↔ (In xs x × (fits image origin (pattern x) ≡ true)
        × ((y : X) → In xs y → fits image origin (pattern y) ≡ true
        → length (pattern y) ≤ length (pattern x))) }
{}

/// An arc of a graph is chosen where it fits and has as many bits as any arc of its mux that fits.
pub fn chosen_arc_is_longest_of_its_mux()
    ensures { (g : Graph) (image : Bits) (a : GraphArc)
        → (is_chosen g image a ≡ true)
        ↔ ((fits image a.origin a.arc.bits ≡ true)
        × ((b : GraphArc) → In g.arcs b → b.mux ≡ a.mux → fits image a.origin b.arc.bits ≡ true
        → length b.arc.bits ≤ length a.arc.bits)) }
{}

/// The links are those of the chosen arcs of all muxes, and the fixed connections and joins.
pub fn links_are_chosen_or_fixed()
    ensures { (g : Graph) (image : Bits) (link : Link)
        → In (links_of g image) link
        ↔ (((a : GraphArc) × (In g.arcs a × (is_chosen g image a ≡ true) × (link_of a ≡ link)))
        ⊎ In g.fixed link) }
{}

/// A routing-mux bit is one that the pattern of some arc names.
pub fn mux_bits_are_named_by_arcs()
    ensures { (g : Graph) (b : DeviceBit)
        → (is_mux_bit g b ≡ true) ↔ ((a : GraphArc) × (In g.arcs a × In (bits_named a.origin a.arc.bits) b)) }
{}

/// A device has at most one graph.
pub fn graph_is_determined()
    ensures { (device : Device) (g h : Graph) → IsGraph device g → IsGraph device h → g ≡ h }
{}

/// A device has a graph: the one that `graph_of` computes.
pub fn device_has_a_graph()
    ensures { (device : Device) → IsGraph device (graph_of device) }
{}

/// The numbers of a graph's muxes stand for what the database and the names of wires say.
pub fn muxes_stand()
    ensures { (device : Device) (g : Graph) → IsGraph device g → (m : GraphMux) → In g.muxes m
        → MuxStands device g m }
{}

/// The numbers of a graph's arcs stand for what the database and the names of wires say.
pub fn arcs_stand()
    ensures { (device : Device) (g : Graph) → IsGraph device g → (a : GraphArc) → In g.arcs a
        → ArcStands device g a }
{}

/// No arc whose names stand for wires is lost.
pub fn named_arcs_are_there()
    ensures { (device : Device) (g : Graph) → IsGraph device g
        → (number : ℕ) (mux : Mux) (place : ℕ) (arc : Arc) → NamesArc device number mux place arc
        → HasArc g number mux place arc }
{}

/// Whether the arcs agree can be tested.
pub fn agreement_is_tested()
    ensures { (device : Device) (g : Graph) → IsGraph device g
        → (image : Bits) (config : Config) → (arcs_agree g image config ≡ true) ↔ ArcsAgree g image config }
{}

/// A bit of an image is as the last write that names it leaves it.
pub fn last_write_decides()
    ensures { (g : Graph) (config : Config) (b : DeviceBit) (value : Bool)
        → LastWritten (bit_writes (writes_of g config)) b value → image_of g config b ≡ value }
{}

/// A bit that no write names is 0.
pub fn unwritten_bit_is_zero()
    ensures { (g : Graph) (config : Config) (b : DeviceBit) → IsUnwritten (bit_writes (writes_of g config)) b
        → image_of g config b ≡ false }
{}
