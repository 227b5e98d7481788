//! Paths of arcs between wires, the first among the least, and cuts that no path crosses. There are definitions
//! only.
#![tactic(auto)]
