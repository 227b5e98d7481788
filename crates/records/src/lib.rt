//! The files that the program reads, as records of lists: database, grid, profile, side file and
//! configuration; and every limit. Contracts speak of these, however a program keeps them.
#![tactic(auto)]
