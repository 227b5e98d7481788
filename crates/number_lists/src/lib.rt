//! Laws of the graph that numbers stand for: its lists are those of the numbers. There is no code but laws, each the contract
//! of a function with an empty body.
#![tactic(auto)]

ghost use Rattle.number_lists.specs.Statements.{GraphKeepsNumbers, LinksAreWithin, OutputsAreBelow, RowsAreGiven};

/// The graph that the numbers of a device stand for has as many muxes and arcs, with these numbers.
pub fn the_graph_keeps_its_numbers()
    ensures { GraphKeepsNumbers }
{}

/// Fixed connections, joins and cell outputs are of wires that have numbers.
pub fn ends_have_numbers()
    ensures links { LinksAreWithin }
    ensures outputs { OutputsAreBelow }
{}

/// What is kept of a graph in rows gives its lists.
pub fn rows_give_the_lists()
    ensures { RowsAreGiven }
{}
