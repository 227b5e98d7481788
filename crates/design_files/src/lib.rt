//! The files of a design: what they are read as, or the first fault of the first file that has one.
#![tactic(auto)]
