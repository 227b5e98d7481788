//! The checks of a design whose files are read, from the size of its graph to the copies of its parts, and the first
//! that fails. There are definitions only.
#![tactic(auto)]
