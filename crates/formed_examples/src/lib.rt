//! The toggle on MINI-A as a design that is read, from the texts of its profile and its side file on. It meets all that
//! the laws on such designs ask.
#![tactic(auto)]

ghost use Rattle.attempts.specs.Candidates.{site_named};
ghost use Rattle.attempts.specs.Moves.{moved_side};
ghost use Rattle.cells.specs.Sites.{Site};
ghost use Rattle.circuit.specs.Faults.{Fault};
ghost use Rattle.circuit.specs.Right.{RightOutside, TwoAreRight};
ghost use Rattle.circuit.specs.Triplicated.{IsTriplicated};
ghost use Rattle.fabric_laws.specs.PlainGraph.{graph_of};
ghost use Rattle.formed_examples.specs.Databases.{clock_db_text, pad_db_text, slice_db_text};
ghost use Rattle.formed_examples.specs.Texts.{profile_text, side_text};
ghost use Rattle.formed_laws.specs.Designs.{IsReadDesign};
ghost use Rattle.formed_laws.specs.Readers.{IsReadGrid};
ghost use Rattle.formed_laws.specs.SideRead.{IsApart};
ghost use Rattle.grammars.specs.BitsDb.{database_of};
ghost use Rattle.json_forms.specs.Profile.{profile_of};
ghost use Rattle.links.specs.Links.{IsClean};
ghost use Rattle.mini.specs.MiniA.{mck, mini_a, mio, mlc};
ghost use Rattle.mini.specs.Toggle.{toggle, toggle_side};
ghost use Rattle.records.specs.Profile.{SliceKind};
ghost use Rattle.records.specs.Side.{Domain};
ghost use Rattle.repair.specs.Turns.{routing};
ghost use Rattle.side_form.specs.Side.{side_of};
ghost use Rattle.std.specs.Prelude.{Ok, Some, ◌≡◌};
ghost use Rattle.upset.specs.Configured.{circuit_of};
ghost use Rattle.upset.specs.Safe.{IsMuxFault, IsSafe};
ghost use Rattle.formed_laws.specs.DatabaseRead.{IsReadDevice};
ghost use Rattle.upset_examples.specs.Circuits.{with_toggle};

/// The texts of the profile and of the side file are read as MINI-A's profile and as the toggle's side file, and MINI-A's
/// grid is one that is read.
pub fn texts_are_read()
    ensures profile { profile_of profile_text ≡ Ok mini_a.profile }
    ensures side { side_of side_text ≡ Ok toggle_side }
    ensures grid { IsReadGrid mini_a.grid }
{}

/// So are the texts of its databases: MINI-A is a device that is read.
pub fn mini_a_is_read()
    ensures slices { database_of slice_db_text ≡ Ok mlc }
    ensures pads { database_of pad_db_text ≡ Ok mio }
    ensures clocks { database_of clock_db_text ≡ Ok mck }
    ensures device { IsReadDevice mini_a }
{}

/// The toggle is a design that is read; it is clean, triplicated and safe, so that each flip of a routing-mux bit is
/// masked.
pub fn toggle_is_read()
    ensures read { IsReadDesign mini_a (with_toggle (graph_of mini_a) toggle) }
    ensures clean { IsClean (routing (with_toggle (graph_of mini_a) toggle)) }
    ensures triplicated { IsTriplicated (circuit_of (with_toggle (graph_of mini_a) toggle)) }
    ensures safe { IsSafe (with_toggle (graph_of mini_a) toggle) }
    ensures masked { let k = with_toggle (graph_of mini_a) toggle in (f : Fault) → IsMuxFault k f
        → ((d : Domain) × RightOutside (circuit_of k) f d) × TwoAreRight (circuit_of k) f }
{}
