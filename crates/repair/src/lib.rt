//! How a placed and routed design is repaired: which arcs a route may take, the path of a connection, the cut of
//! a blocked one, and which routes are ripped up. There are definitions only.
#![tactic(auto)]
