//! Laws that lead from a search over numbers to the paths and cuts of a router: arcs, links and rules by number stand for
//! the turn of a net. Each is the contract of a function with an empty body.
#![tactic(auto)]

ghost use Rattle.search_laws.specs.Statements.{CutIsCut, NumbersMeetSearch, PathHasArcs, PathIsRoute, RouteHasNumbers, SomeNumbers};

/// Each turn has lists and rules by number that stand for it, and what stands for it meets what a search asks.
pub fn turns_are_numbered()
    ensures some { SomeNumbers }
    ensures meet { NumbersMeetSearch }
{}

/// A search finds the path of the connection, by the numbers of its arcs.
pub fn path_by_number_is_the_route()
    ensures same { PathIsRoute }
    ensures arcs { PathHasArcs }
    ensures numbers { RouteHasNumbers }
{}

/// A search answers the cut of the connection, with its rim.
pub fn cut_by_number_is_the_cut()
    ensures { CutIsCut }
{}
