//! Laws of the sizes of graphs and of overlapping cell outputs, from counts of numbers: what is refused of a device's graph.
//! There is no code but laws, each the contract of a function with an empty body.
#![tactic(auto)]

ghost use Rattle.size_laws.specs.Statements.{ArcsRefuse, MuxesRefuse, NoneRefuses, OnceDoesNot, TwiceOverlaps, WiresRefuse};

/// The first count that passes its limit is what is refused of the size of the graph.
pub fn counts_refuse_the_size()
    ensures wires { WiresRefuse }
    ensures muxes { MuxesRefuse }
    ensures arcs { ArcsRefuse }
    ensures none { NoneRefuses }
{}

/// The least wire that is an output twice is what overlaps.
pub fn outputs_that_stand_twice_overlap()
    ensures twice { TwiceOverlaps }
    ensures once { OnceDoesNot }
{}
