//! Masking, at any moment, of a design with input pads on a device. Each law is the contract of a function with an empty body.
#![tactic(auto)]

ghost use Rattle.circuit.specs.Faults.{Fault};
ghost use Rattle.circuit.specs.Right.{RightOutside, TwoAreRight};
ghost use Rattle.circuit.specs.Sound.{IsSoundCircuit};
ghost use Rattle.fabric_laws.specs.PlainGraph.{graph_of};
ghost use Rattle.lasting_laws.specs.Lasting.{HardensAtAnyMoment, SaysSomething};
ghost use Rattle.mini_b.specs.Corridor.{corridor, corridor_side};
ghost use Rattle.mini_b.specs.MiniB.{mini_b};
ghost use Rattle.records.specs.Side.{Domain};
ghost use Rattle.repair.specs.Layouts.{configured};
ghost use Rattle.route_examples.specs.Corridors.{with_corridor};
ghost use Rattle.std.specs.Prelude.{[], ◌≢◌};
ghost use Rattle.upset.specs.Configured.{circuit_of};
ghost use Rattle.upset.specs.Safe.{IsMuxFault};

/// On the corridor, a design with input pads on MINI-B, the flip of any single routing-mux bit is masked: there is one domain
/// outside which all output pads are right, and at least two of each three are. So it is in whatever cycle the flip comes; each
/// of these bits has its fault, and each start, input and choice just one run.
pub fn corridor_is_masked()
    ensures inputs { corridor_side.inputs ≢ [] }
    ensures sound { IsSoundCircuit (circuit_of (configured (with_corridor (graph_of mini_b) corridor))) }
    ensures masked { let k = configured (with_corridor (graph_of mini_b) corridor) in
        (f : Fault) → IsMuxFault k f → ((d : Domain) × RightOutside (circuit_of k) f d) × TwoAreRight (circuit_of k) f }
    ensures moment { let k = configured (with_corridor (graph_of mini_b) corridor) in HardensAtAnyMoment k k }
    ensures says { SaysSomething (configured (with_corridor (graph_of mini_b) corridor)) }
{}
