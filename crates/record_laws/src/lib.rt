//! Laws of what stands behind the numbers of muxes and arcs: their records in databases, the device bits that are gathered once for
//! each mux of a database and moved to its tiles, and how a name finds a mux or an arc. There is no code but laws, each the contract
//! of a function with an empty body.
#![tactic(auto)]

ghost use Rattle.bit_rows.specs.MuxBits.{MuxBit, bits_by_mux, mux_first};
ghost use Rattle.fabric.specs.Device.{Device};
ghost use Rattle.fabric.specs.Graph.{Graph};
ghost use Rattle.fabric.specs.GraphOf.{IsGraph};
ghost use Rattle.fabric.specs.Image.{arc_named, mux_named};
ghost use Rattle.fabric.specs.InOrder.{IsRising};
ghost use Rattle.graph_lists.specs.ArcLists.{ArcNumbers};
ghost use Rattle.graph_lists.specs.Places.{places};
ghost use Rattle.graph_numbers.specs.Numbers.{mux_numbers};
ghost use Rattle.mux_rows.specs.MuxTable.{MuxNumbers};
ghost use Rattle.patterns.specs.Bits.{DeviceBit};
ghost use Rattle.record_laws.specs.KeptBits.{is_ignored, pairs_from};
ghost use Rattle.record_laws.specs.Records.{AreArcsOf, AreMuxesOf, FoundAt, PlacesRise, arc_behind, arc_named_behind, mux_behind, place_named};
ghost use Rattle.row_laws.specs.BitRows.{AreBitRows};
ghost use Rattle.std.specs.Prelude.{List, None, Option, false, length, option_map, slice_get, true, ◌<◌, ◌==◌, ◌≡◌, ℕ};
ghost use Rattle.words.specs.Members.{In};

/// Muxes with the bits that were gathered for their databases and moved to their tiles stand in order by mux, then bit, and as rows
/// they are the bits of the muxes of the graph.
pub fn gathered_bits_are_those_of_the_muxes()
    ensures order { (device : Device) (muxes : List MuxNumbers) → IsRising mux_first (pairs_from device 0 muxes) }
    ensures known { (device : Device) (muxes : List MuxNumbers) (p : MuxBit) → In (pairs_from device 0 muxes) p → p.mux < length muxes }
    ensures rows { (device : Device) (g : Graph) → IsGraph device g → (muxes : List MuxNumbers) → muxes ≡ mux_numbers device g.wires
        → (pairs : List MuxBit) (rows : List (List DeviceBit)) → pairs ≡ pairs_from device 0 muxes → rows ≡ bits_by_mux (length muxes) pairs → AreBitRows g rows }
{}

/// The records behind numbers are those of the graph; none where the graph has no such mux or arc.
pub fn records_are_those_of_the_graph()
    ensures muxes { (device : Device) (g : Graph) (muxes : List MuxNumbers) → AreMuxesOf device g muxes
        → (m : ℕ) → mux_behind device muxes m ≡ option_map (λ x. x.mux) (slice_get g.muxes m) }
    ensures arcs { (device : Device) (g : Graph) (muxes : List MuxNumbers) (arcs : List ArcNumbers) → AreArcsOf device g muxes arcs
        → (a : ℕ) → arc_behind device muxes arcs a ≡ option_map (λ x. x.arc) (slice_get g.arcs a) }
{}

/// The places of the muxes of a tile rise, so that the mux of a name is found by the place of the first record of the name.
pub fn muxes_are_found_by_place()
    ensures rise { (device : Device) (g : Graph) (muxes : List MuxNumbers) → AreMuxesOf device g muxes
        → (t : ℕ) → PlacesRise muxes (places (λ m. m.tile == t) muxes) }
    ensures named { (device : Device) (g : Graph) (muxes : List MuxNumbers) → AreMuxesOf device g muxes
        → (t : ℕ) (sink : List ℕ) (r : Option ℕ) → FoundAt muxes (places (λ m. m.tile == t) muxes) (place_named device t sink) r → r ≡ mux_named g t sink }
{}

/// The arc of a name is the first of its mux in the database, though arcs stand in arc order; there is none from a source that is
/// ignored.
pub fn arcs_are_found_in_databases()
    ensures named { (device : Device) (g : Graph) (muxes : List MuxNumbers) → AreMuxesOf device g muxes
        → (m : ℕ) (source : List ℕ) → is_ignored device.profile.rules source ≡ false
        → option_map (λ a. a.arc) (arc_named g m source) ≡ arc_named_behind device muxes m source }
    ensures ignored { (device : Device) (g : Graph) (muxes : List MuxNumbers) → AreMuxesOf device g muxes
        → (m : ℕ) (source : List ℕ) → is_ignored device.profile.rules source ≡ true → arc_named g m source ≡ None }
{}
