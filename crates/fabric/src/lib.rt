//! The routing fabric: the wires that names stand for, the graph of a device, the image of a configuration, and
//! which arcs, links and settings a set of device bits makes.
#![tactic(auto)]
