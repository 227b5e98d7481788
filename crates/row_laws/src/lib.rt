//! Laws that rows of numbers, as a program keeps them, are the lists of a graph. Each is the contract of a function with an
//! empty body.
#![tactic(auto)]

ghost use Rattle.bit_rows.specs.MuxBits.{muxes_with};
ghost use Rattle.fabric.specs.Device.{Device};
ghost use Rattle.fabric.specs.Graph.{Graph, GraphArc};
ghost use Rattle.fabric.specs.GraphOf.{IsGraph, arcs_of};
ghost use Rattle.fabric.specs.InOrder.{InOrderOnce, IsRising};
ghost use Rattle.fabric.specs.MuxBits.{bit_cmp};
ghost use Rattle.fabric.specs.Wires.{Wire};
ghost use Rattle.graph_lists.specs.ArcLists.{ArcNumbers, arcs_in, arcs_into, arcs_out, mux_order, muxes_into, numbers_cmp, numbers_of};
ghost use Rattle.graph_lists.specs.BitLists.{AreMuxBits, muxes_of_bit};
ghost use Rattle.graph_lists.specs.Places.{places};
ghost use Rattle.mux_rows.specs.MuxTable.{MuxNumbers};
ghost use Rattle.patterns.specs.Bits.{DeviceBit};
ghost use Rattle.row_laws.specs.BitRows.{AreBitRows};
ghost use Rattle.std.specs.Prelude.{List, flat_map, length, map, ◌<◌, ◌==◌, ◌≡◌, ℕ};
ghost use Rattle.words.specs.Members.{In};

/// The arcs of a device stand in mux order, as their rows ask.
pub fn arcs_of_a_device_are_in_mux_order()
    ensures { (device : Device) (wires : List Wire) → IsRising mux_order (map numbers_of (arcs_of device wires)) }
{}

/// The numbers of a device's arcs, put in arc order, are those of the arcs of its graph.
pub fn arcs_in_order_are_the_arcs_of_the_graph()
    ensures { (device : Device) (g : Graph) → IsGraph device g
        → (arcs : List ArcNumbers) → InOrderOnce numbers_cmp (map numbers_of (arcs_of device g.wires)) arcs
        → map numbers_of g.arcs ≡ arcs }
{}

/// The rows of the arcs' numbers are the graph's lists.
pub fn arc_rows_are_the_lists_of_the_graph()
    ensures out { (g : Graph) (arcs : List ArcNumbers) → map numbers_of g.arcs ≡ arcs
        → (w : ℕ) → places (λ a. a.source == w) arcs ≡ arcs_out g w }
    ensures into { (g : Graph) (arcs : List ArcNumbers) → map numbers_of g.arcs ≡ arcs
        → (w : ℕ) → places (λ a. a.sink == w) arcs ≡ arcs_into g w }
    ensures of_mux { (g : Graph) (arcs : List ArcNumbers) → map numbers_of g.arcs ≡ arcs
        → (m : ℕ) → places (λ a. a.mux == m) arcs ≡ arcs_in g m }
{}

/// The rows of the muxes' sinks are the graph's lists.
pub fn mux_rows_are_the_lists_of_the_graph()
    ensures { (g : Graph) (muxes : List MuxNumbers) → map (λ m. m.sink) g.muxes ≡ map (λ m. m.sink) muxes
        → (w : ℕ) → places (λ m. m.sink == w) muxes ≡ muxes_into g w }
{}

/// The muxes in whose row a bit stands are the muxes of the bit, and the bits of all rows, in order, are the routing-mux bits.
pub fn bit_rows_are_the_lists_of_the_graph()
    ensures muxes { (g : Graph) (rows : List (List DeviceBit)) → AreBitRows g rows
        → (b : DeviceBit) → muxes_with rows b ≡ muxes_of_bit g b }
    ensures bits { (g : Graph) (rows : List (List DeviceBit)) → AreBitRows g rows
        → ((a : GraphArc) → In g.arcs a → a.mux < length g.muxes)
        → (bits : List DeviceBit) → InOrderOnce bit_cmp (flat_map (λ row. row) rows) bits → AreMuxBits g bits }
{}
