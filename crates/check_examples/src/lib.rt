//! What the checks of a design let pass and what they refuse, on the small devices, each the contract of a function with an
//! empty body.
#![tactic(auto)]

ghost use Rattle.answers.specs.Refusals.{ArcDiffers, Contested, CopiesDiffer, Loop, NotClocked, NotMasking, OpenPin, UnnamedSource};
ghost use Rattle.cells.specs.CellsOf.{cells_of};
ghost use Rattle.check_examples.specs.CorridorRefused.{cells_without_u, looped, looped_circuit, on_corridor, side_without_u, stray_track, stray_unnamed_circuit, turned, turned_circuit, unnamed_circuit};
ghost use Rattle.check_examples.specs.Refused.{cells_with_word, circuit_with, on_toggle, reading_d, second_arc, second_arc_reading_d, unclocked, unmasked};
ghost use Rattle.check_examples.specs.Toggles.{toggle_design};
ghost use Rattle.check_laws.specs.Accepted.{IsSound};
ghost use Rattle.circuit.specs.Parts.{Register, Table};
ghost use Rattle.design_answers.specs.BadBits.{AreBadPlaces};
ghost use Rattle.design_checks.specs.Checks.{Passes};
ghost use Rattle.design_checks.specs.CopyChecks.{CopiesUnlike, part_in};
ghost use Rattle.design_checks.specs.DesignChecks.{DesignRefused, configured_as};
ghost use Rattle.design_checks.specs.MaskChecks.{TablesFail};
ghost use Rattle.design_checks.specs.PinChecks.{PinsOpen, RegistersUnclocked, SourceUnnamed, TablesLoop};
ghost use Rattle.design_checks.specs.RoutingChecks.{ArcsDiffer, AreContested};
ghost use Rattle.fabric.specs.Image.{image_of};
ghost use Rattle.fabric.specs.Wires.{Local};
ghost use Rattle.fabric_examples.specs.Faulty.{stray_bit};
ghost use Rattle.fabric_laws.specs.PlainGraph.{graph_of};
ghost use Rattle.mini.specs.MiniA.{mini_a};
ghost use Rattle.mini.specs.Toggle.{crossed, toggle_side, toggle};
ghost use Rattle.mini.specs.ToggleCells.{toggle_cells};
ghost use Rattle.mini_b.specs.Corridor.{corridor, corridor_side};
ghost use Rattle.mini_b.specs.MiniB.{mini_b};
ghost use Rattle.records.specs.Side.{D0, D2};
ghost use Rattle.reports.specs.Reports.{AtWire};
ghost use Rattle.std.specs.Prelude.{codes, pos, Ok, [], ◌∷◌, ◌≡◌};
ghost use Rattle.upset_examples.specs.Circuits.{with_toggle};

/// The toggle is sound, and so it passes all checks.
pub fn toggle_passes()
    ensures sound { IsSound mini_a toggle (configured_as toggle_design (graph_of mini_a) (toggle_cells (graph_of mini_a))) }
    ensures passes { Passes (DesignRefused toggle_design (graph_of mini_a)) }
{}

/// A set bit that makes an arc without a line.
pub fn stray_bit_is_refused()
    ensures refused { let g = graph_of mini_a in ArcsDiffer g (image_of g stray_bit) stray_bit (ArcDiffers (codes "R1C1:MLC") (codes "H5")) }
    ensures first { DesignRefused (on_toggle stray_bit) (graph_of mini_a) (ArcDiffers (codes "R1C1:MLC") (codes "H5")) }
{}

/// A pin with a second arc.
pub fn second_arc_is_refused()
    ensures refused { let g = graph_of mini_a in AreContested g (image_of g second_arc) (Contested (Local (pos 1) (pos 3) (codes "A")) (Local (pos 1) (pos 3) (codes "H0")) (Local (pos 1) (pos 3) (codes "H3"))) }
    ensures first { DesignRefused (on_toggle second_arc) (graph_of mini_a) (Contested (Local (pos 1) (pos 3) (codes "A")) (Local (pos 1) (pos 3) (codes "H0")) (Local (pos 1) (pos 3) (codes "H3"))) }
{}

/// A word that doesn't mask copy 1: from all ones its pin falls, which gives address 3.
pub fn unmasked_copy_is_refused()
    ensures cells { let g = graph_of mini_a in cells_of g mini_a.profile (image_of g unmasked) toggle_side
        ≡ Ok (cells_with_word g 0x1F1F) }
    ensures refused { let g = graph_of mini_a in TablesFail (circuit_with g unmasked (cells_with_word g 0x1F1F)) (NotMasking (part_in (codes "a0") (Table 0)) 3) }
    ensures first { DesignRefused (on_toggle unmasked) (graph_of mini_a) (NotMasking (part_in (codes "a0") (Table 0)) 3) }
{}

/// A word that reads a pin without a feed.
pub fn open_pin_is_refused()
    ensures cells { let g = graph_of mini_a in cells_of g mini_a.profile (image_of g reading_d) toggle_side
        ≡ Ok (cells_with_word g 0x9717) }
    ensures refused { let g = graph_of mini_a in PinsOpen (circuit_with g reading_d (cells_with_word g 0x9717)) (OpenPin (record { part = part_in (codes "a0") (Table 0); pin = 3 })) }
    ensures first { DesignRefused (on_toggle reading_d) (graph_of mini_a) (OpenPin (record { part = part_in (codes "a0") (Table 0); pin = 3 })) }
{}

/// A register without a clock.
pub fn missing_clock_is_refused()
    ensures cells { let g = graph_of mini_a in cells_of g mini_a.profile (image_of g unclocked) toggle_side
        ≡ Ok (toggle_cells g) }
    ensures refused { let g = graph_of mini_a in RegistersUnclocked (circuit_with g unclocked (toggle_cells g)) (NotClocked (part_in (codes "a0") (Register 0))) }
    ensures first { DesignRefused (on_toggle unclocked) (graph_of mini_a) (NotClocked (part_in (codes "a0") (Register 0))) }
{}

/// The crossed toggle has one bad bit, which joins copies 0 and 2: one is disturbed from the first slice on, the other in
/// the third alone.
pub fn crossed_has_one_bad_bit()
    ensures { AreBadPlaces (with_toggle (graph_of mini_a) crossed) (record {
      bit = record { frame = 52; bit = 11 };
      first = D0;
      first_at = AtWire (Local (pos 1) (pos 1) (codes "H4"));
      second = D2;
      second_at = AtWire (Local (pos 1) (pos 3) (codes "H3"));
    } ∷ []) }
{}

/// A table that reads itself over a track.
pub fn loop_is_refused()
    ensures refused { TablesLoop (looped_circuit (graph_of mini_b)) (Loop (part_in (codes "w0") (Table 0))) }
    ensures first { DesignRefused (on_corridor looped corridor_side) (graph_of mini_b) (Loop (part_in (codes "w0") (Table 0))) }
{}

/// A pin that a slice without a name feeds.
pub fn unnamed_source_is_refused()
    ensures refused { let g = graph_of mini_b in SourceUnnamed g (unnamed_circuit g) (UnnamedSource (record { part = part_in (codes "w0") (Table 0); pin = 0 }) (Local (pos 1) (pos 1) (codes "F"))) }
    ensures first { DesignRefused (on_corridor corridor side_without_u) (graph_of mini_b) (UnnamedSource (record { part = part_in (codes "w0") (Table 0); pin = 0 }) (Local (pos 1) (pos 1) (codes "F"))) }
{}

/// A table that isn't like its copies: where its pin takes 0 it gives 1, and they give 0.
pub fn turned_copy_is_refused()
    ensures refused { CopiesUnlike (turned_circuit (graph_of mini_b)) (CopiesDiffer (part_in (codes "w0") (Table 0)) (codes "0 010")) }
    ensures first { DesignRefused (on_corridor turned corridor_side) (graph_of mini_b) (CopiesDiffer (part_in (codes "w0") (Table 0)) (codes "0 010")) }
{}

/// Where a set bit makes an arc without a line and a pin is fed from a slice without a name, the arc is refused, since its
/// check comes first.
pub fn stray_bit_comes_before_unnamed_source()
    ensures earlier { DesignRefused (on_corridor stray_track side_without_u) (graph_of mini_b) (ArcDiffers (codes "R1C1:SLC") (codes "U")) }
    ensures cells { let g = graph_of mini_b in cells_of g mini_b.profile (image_of g stray_track) side_without_u ≡ Ok (cells_without_u g) }
    ensures later { let g = graph_of mini_b in SourceUnnamed g (stray_unnamed_circuit g) (UnnamedSource (record { part = part_in (codes "w0") (Table 0); pin = 0 }) (Local (pos 1) (pos 1) (codes "F"))) }
{}

/// Where a pin has a second arc and another one is open, the two drivers are refused.
pub fn second_arc_comes_before_open_pin()
    ensures earlier { DesignRefused (on_toggle second_arc_reading_d) (graph_of mini_a) (Contested (Local (pos 1) (pos 3) (codes "A")) (Local (pos 1) (pos 3) (codes "H0")) (Local (pos 1) (pos 3) (codes "H3"))) }
    ensures cells { let g = graph_of mini_a in cells_of g mini_a.profile (image_of g second_arc_reading_d) toggle_side ≡ Ok (cells_with_word g 0x9717) }
    ensures later { let g = graph_of mini_a in PinsOpen (circuit_with g second_arc_reading_d (cells_with_word g 0x9717)) (OpenPin (record { part = part_in (codes "a0") (Table 0); pin = 3 })) }
{}
