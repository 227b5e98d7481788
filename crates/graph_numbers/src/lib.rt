//! Laws of the muxes and arcs of a device by numbers alone: what they stand for. There is no code but laws, each the
//! contract of a function with an empty body.
#![tactic(auto)]

ghost use Rattle.graph_numbers.specs.Statements.{ArcsAreNumbered, MuxesAreNumbered, NumbersAreGraph, OrderIsKept};

/// Muxes and arcs by numbers stand for those of the device, one for each, in order.
pub fn numbers_stand_for_all()
    ensures muxes { MuxesAreNumbered }
    ensures arcs { ArcsAreNumbered }
{}

/// Numbers of arcs in order stand for the arcs in order.
pub fn order_is_kept()
    ensures { OrderIsKept }
{}

/// What a program keeps of a graph stands for the graph of its device.
pub fn numbers_are_graph()
    ensures { NumbersAreGraph }
{}
