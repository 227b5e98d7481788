//! What a flip of device bits does to a configured circuit: the wires that it disturbs and the cells that it
//! touches, and when it reaches two copies. There are definitions only.
#![tactic(auto)]
