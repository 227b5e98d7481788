//! The cells of an image: the tables, registers and pads at the sites that a side file names, what is refused of
//! them, and when two kinds of slices have equal shape. There are definitions only.
#![tactic(auto)]
