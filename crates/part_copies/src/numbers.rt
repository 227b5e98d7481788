//! The numbers of copies.

use circuit_parts::SourceId;

/// The numbers of the parts of one kind in the three cells of a triple, in order of domains; `None` where a cell has no such part.
#[derive(Clone, Copy)]
pub struct CopyNumbers {
    pub first: Option<SourceId>,
    pub second: Option<SourceId>,
    pub third: Option<SourceId>,
}
