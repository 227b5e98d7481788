//! The attempts of a router: which connections it routes in which order, what it does after a block, how a slice
//! moves, and how the attempts end. There are definitions only.
#![tactic(auto)]
