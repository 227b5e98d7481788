//! The lists that a routing graph gives: arcs and muxes at wires, arcs of a mux, fixed connections both ways, bits of a
//! mux and muxes of a bit. There is no code but laws, each the contract of a function with an empty body.
#![tactic(auto)]

ghost use Rattle.fabric.specs.Graph.{Graph, GraphArc, GraphMux};
ghost use Rattle.fabric.specs.GraphOf.{arc_cmp, link_cmp};
ghost use Rattle.fabric.specs.InOrder.{InOrderOnce, IsRising};
ghost use Rattle.fabric.specs.MuxBits.{is_mux_bit};
ghost use Rattle.graph_lists.specs.ArcLists.{arcs_in, arcs_into, arcs_out, muxes_into, numbers_cmp, numbers_of};
ghost use Rattle.graph_lists.specs.BitLists.{AreBitsOf, AreMuxBits, is_setting_bit, muxes_of_bit, setting_bits};
ghost use Rattle.graph_lists.specs.FixedLists.{links_from, links_into};
ghost use Rattle.graph_lists.specs.Places.{places};
ghost use Rattle.links.specs.Links.{Link};
ghost use Rattle.patterns.specs.Bits.{DeviceBit};
ghost use Rattle.std.specs.Ordering.{nat_cmp};
ghost use Rattle.std.specs.Prelude.{Bool, List, Some, length, map, slice_get, true, ◌<◌, ◌≡◌, ◌↔◌, ℕ};
ghost use Rattle.words.specs.Members.{In};

/// A place is listed exactly where the element there passes, and places rise, so each is listed once.
pub fn places_are_those_that_pass<X>()
    ensures members { (p : X → Bool) (xs : List X) (i : ℕ)
        → In (places p xs) i ↔ ((x : X) × ((slice_get xs i ≡ Some x) × (p x ≡ true))) }
    ensures order { (p : X → Bool) (xs : List X) → IsRising nat_cmp (places p xs) }
{}

/// An arc leaves its source and no other wire, leads into its sink and no other, and is of its mux and of no other.
pub fn arcs_are_listed_once()
    ensures out { (g : Graph) (w a : ℕ)
        → In (arcs_out g w) a ↔ ((arc : GraphArc) × ((slice_get g.arcs a ≡ Some arc) × (arc.source ≡ w))) }
    ensures into { (g : Graph) (w a : ℕ)
        → In (arcs_into g w) a ↔ ((arc : GraphArc) × ((slice_get g.arcs a ≡ Some arc) × (arc.sink ≡ w))) }
    ensures of_mux { (g : Graph) (m a : ℕ)
        → In (arcs_in g m) a ↔ ((arc : GraphArc) × ((slice_get g.arcs a ≡ Some arc) × (arc.mux ≡ m))) }
{}

/// A mux drives its sink and no other wire.
pub fn muxes_are_listed_once()
    ensures { (g : Graph) (w m : ℕ)
        → In (muxes_into g w) m ↔ ((mux : GraphMux) × ((slice_get g.muxes m ≡ Some mux) × (mux.sink ≡ w))) }
{}

/// Both lists of links hold the same pairs, those of the links.
pub fn link_lists_hold_the_same_pairs()
    ensures from { (links : List Link) (x w : ℕ) → In (links_from links x) w ↔ In links (record { source = x; sink = w }) }
    ensures into { (links : List Link) (x w : ℕ) → In (links_into links w) x ↔ In links (record { source = x; sink = w }) }
{}

/// Of links in order both lists are in wire order, each wire once.
pub fn link_lists_are_in_wire_order()
    ensures from { (links : List Link) (w : ℕ) → IsRising link_cmp links → IsRising nat_cmp (links_from links w) }
    ensures into { (links : List Link) (w : ℕ) → IsRising link_cmp links → IsRising nat_cmp (links_into links w) }
{}

/// The bits of muxes and the muxes of bits hold the same pairs.
pub fn bits_and_muxes_hold_the_same_pairs()
    ensures { (g : Graph) (m : ℕ) (bits : List DeviceBit) → AreBitsOf g m bits → m < length g.muxes
        → (b : DeviceBit) → In (muxes_of_bit g b) m ↔ In bits b }
{}

/// The routing-mux bits are one list: the bits that some mux of the graph has.
pub fn mux_bits_are_one_list()
    ensures members { (g : Graph) (bits : List DeviceBit) → AreMuxBits g bits
        → (b : DeviceBit) → In bits b ↔ (is_mux_bit g b ≡ true) }
    ensures muxes { (g : Graph) → ((a : GraphArc) → In g.arcs a → a.mux < length g.muxes)
        → (b : DeviceBit) → (is_mux_bit g b ≡ true) ↔ ((m : ℕ) × In (muxes_of_bit g b) m) }
    ensures one { (g : Graph) (bits more : List DeviceBit) → AreMuxBits g bits → AreMuxBits g more → bits ≡ more }
    ensures of_mux { (g : Graph) (m : ℕ) (bits more : List DeviceBit) → AreBitsOf g m bits → AreBitsOf g m more → bits ≡ more }
{}

/// A bit of a setting is one that stands in the list of them.
pub fn setting_bits_are_listed()
    ensures { (g : Graph) (b : DeviceBit) → (is_setting_bit g b ≡ true) ↔ In (setting_bits g) b }
{}

/// Arcs are in order where their numbers are.
pub fn arc_order_is_of_numbers()
    ensures { (named arcs : List GraphArc) → InOrderOnce arc_cmp named arcs
        → InOrderOnce numbers_cmp (map numbers_of named) (map numbers_of arcs) }
{}
