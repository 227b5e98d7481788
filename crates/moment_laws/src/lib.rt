//! Laws of faults that begin in any cycle of a run, each the contract of a function with an empty body.
#![tactic(auto)]

ghost use Rattle.circuit.specs.Circuits.{Circuit};
ghost use Rattle.circuit.specs.Designs.{SameDesign};
ghost use Rattle.circuit.specs.Faults.{no_fault, Fault, WithinOneDomain};
ghost use Rattle.circuit.specs.Runs.{IsRun};
ghost use Rattle.circuit.specs.Sound.{IsSoundCircuit};
ghost use Rattle.circuit.specs.Triples.{PartTriple};
ghost use Rattle.circuit.specs.Worlds.{World};
ghost use Rattle.moment_laws.specs.Moments.{HoldsBitsOf, IsRunFrom, KeepsAllBefore, KeepsOutsideFromAnyCycle, KeepsTwoFromAnyCycle};
ghost use Rattle.records.specs.Side.{Domain, Triple};
ghost use Rattle.std.specs.Prelude.{Bool, ℕ, ◌≡◌, ◌≤◌, ◌↔◌};

/// A fault that begins in the first cycle makes the runs under it, and one that begins at the end or behind it leaves
/// the undisturbed runs.
pub fn fault_begins()
    ensures first { (c : Circuit) (f : Fault) (start : PartTriple → Bool) (input : ℕ → Triple → Bool) (n : ℕ) (run : ℕ → World)
        → IsRunFrom c f 0 start input n run ↔ IsRun c f start input n run }
    ensures never { (c : Circuit) (f : Fault) (t : ℕ) (start : PartTriple → Bool) (input : ℕ → Triple → Bool) (n : ℕ) (run : ℕ → World) → n ≤ t
        → IsRunFrom c f t start input n run ↔ IsRun c no_fault start input n run }
{}

/// A fault can begin in any cycle: from each common start on each input there is a run in which it does.
pub fn fault_can_begin_in_any_cycle()
    ensures { (c : Circuit) → IsSoundCircuit c
        → (f : Fault) (t : ℕ) (start : PartTriple → Bool) (input : ℕ → Triple → Bool) (n : ℕ) → (run : ℕ → World) × IsRunFrom c f t start input n run }
{}

/// Two circuits of one design hold in each cycle the same bits in the registers that both read, from every common start, on
/// every input, for every number of cycles.
pub fn registers_hold_the_same()
    ensures { (c e : Circuit) → IsSoundCircuit c → IsSoundCircuit e → SameDesign c e → HoldsBitsOf c e }
{}

/// A fault whose domains are at most one may begin in any cycle. Each output pad shows before it what each circuit of
/// the design shows undisturbed, and there is one domain outside which it does so in every cycle, so that at least two of
/// the three pads of each output triple do.
pub fn fault_may_begin_in_any_cycle()
    ensures before { (c e : Circuit) → IsSoundCircuit c → IsSoundCircuit e → SameDesign c e → (f : Fault) → KeepsAllBefore c e f }
    ensures outside { (c e : Circuit) → IsSoundCircuit c → IsSoundCircuit e → SameDesign c e
        → (f : Fault) → WithinOneDomain e f → (d : Domain) × KeepsOutsideFromAnyCycle c e f d }
    ensures two { (c e : Circuit) → IsSoundCircuit c → IsSoundCircuit e → SameDesign c e
        → (f : Fault) → WithinOneDomain e f → KeepsTwoFromAnyCycle c e f }
{}
