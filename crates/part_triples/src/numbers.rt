//! The numbers of triples of cells.

use rr_ids::Number;

/// Marks the numbers of triples of cells.
pub struct OfCellTriple;

/// The number of a triple of cells among all of a side file: those of slices, of inputs, of outputs and of clocks.
pub type CellTripleId = Number<OfCellTriple>;
