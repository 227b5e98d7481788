//! Examples of circuits: the definitions of a clean routing, well-formed cells and a triplicated circuit are
//! met, and broken circuits are refused. There is no code but laws, each the contract of a function with an
//! empty body.
#![tactic(auto)]

ghost use Rattle.circuit.specs.Cells.{PadCell};
ghost use Rattle.circuit.specs.Designs.{SameDesign};
ghost use Rattle.circuit.specs.Faults.{no_fault, WithinOneDomain};
ghost use Rattle.circuit.specs.Parts.{output_pads};
ghost use Rattle.circuit.specs.Runs.{IsRun};
ghost use Rattle.circuit.specs.Triples.{IsEntry, PartTriple};
ghost use Rattle.circuit.specs.Triplicated.{ClocksAreClocks, CopiesAlike, IsTriplicated, OpenPinsIgnored, TablesMask};
ghost use Rattle.circuit.specs.WellFormed.{IsWellFormed};
ghost use Rattle.circuit.specs.Worlds.{Bit, World};
ghost use Rattle.circuit_examples.specs.Exchange.{exchange, exchange_with};
ghost use Rattle.circuit_examples.specs.Toggle.{fault_of_a0, fault_of_two, toggle, toggle_pads, toggle_registers, toggle_rerouted, toggle_unclocked, toggle_with, turned};
ghost use Rattle.links.specs.Links.{IsClean};
ghost use Rattle.records.specs.Side.{D0, Triple};
ghost use Rattle.std.specs.Prelude.{Bool, List, ℕ, ◌<◌, ◌≡◌, ◌≢◌};
ghost use Rattle.words.specs.Members.{In};

/// The toggle is clean, well formed and triplicated.
pub fn toggle_is_triplicated()
    ensures clean { IsClean toggle.routing }
    ensures formed { IsWellFormed toggle }
    ensures triplicated { IsTriplicated toggle }
{}

/// The toggle toggles: in every undisturbed run each output pad shows the bit with which the registers start,
/// turned in each cycle.
pub fn toggle_toggles()
    ensures { (start : PartTriple → Bool) (input : ℕ → Triple → Bool) (n : ℕ) (run : ℕ → World)
        → IsRun toggle no_fault start input n run → (t : ℕ) → t < n
        → (name : List ℕ) → IsEntry toggle_pads name
        → (run t).shown name ≡ Bit (turned t (start toggle_registers)) }
{}

/// Under a fault of copy 0 the pads of copies 1 and 2 still do.
pub fn toggle_masks()
    ensures { (start : PartTriple → Bool) (input : ℕ → Triple → Bool) (n : ℕ) (run : ℕ → World)
        → IsRun toggle fault_of_a0 start input n run → (t : ℕ) → t < n
        → (p : PadCell) → In (output_pads toggle.cells) p → p.domain ≢ D0
        → (run t).shown p.name ≡ Bit (turned t (start toggle_registers)) }
{}

/// On other wires the toggle is clean, well formed and triplicated too, and of one design with it.
pub fn rerouted_is_of_one_design()
    ensures clean { IsClean toggle_rerouted.routing }
    ensures formed { IsWellFormed toggle_rerouted }
    ensures triplicated { IsTriplicated toggle_rerouted }
    ensures same { SameDesign toggle toggle_rerouted }
{}

/// A fault of copy 0 of the toggle has one domain at most; one of two copies hasn't.
pub fn toggle_faults()
    ensures one { WithinOneDomain toggle fault_of_a0 }
    ensures two { WithinOneDomain toggle fault_of_two → ⊥ }
{}

/// With the word 0001111100011111, whose highest bit stands first, the table of a0 doesn't mask: where all three
/// registers hold 1 and that of copy 1 is read as 0, its output changes.
pub fn not_masking()
    ensures { TablesMask (toggle_with 0x1F1F) → ⊥ }
{}

/// With the word 1001011100010111 the table of a0 reads its open pin.
pub fn open_pin()
    ensures { OpenPinsIgnored (toggle_with 0x9717) → ⊥ }
{}

/// Without the link to its pin CK the register of a0 has no clock.
pub fn not_clocked()
    ensures { ClocksAreClocks toggle_unclocked → ⊥ }
{}

/// Copies with exchanged pins and words are clean, well formed and triplicated.
pub fn exchange_is_triplicated()
    ensures clean { IsClean exchange.routing }
    ensures formed { IsWellFormed exchange }
    ensures triplicated { IsTriplicated exchange }
{}

/// With the word 0011001100110011 the table of f2 differs from its copies.
pub fn copies_differ()
    ensures { CopiesAlike (exchange_with 0x3333) → ⊥ }
{}
