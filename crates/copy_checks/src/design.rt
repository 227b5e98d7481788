//! What is asked of a design.

use circuit_parts::{Parts, SourceId};
use part_copies::PartNumbers;
use part_triples::PartTriples;
use side_file::Side;

/// The parts and pins of a design, the part that feeds each pin, the triples of parts, whether each part feeds a pin, the side file,
/// and the numbers of parts by name.
#[derive(Drop)]
pub(crate) struct Design<'d, 'c> {
    pub parts: &'d Parts<'c>,
    pub feeds: &'d [Option<SourceId>],
    pub triples: &'d PartTriples,
    pub read: &'d [bool],
    pub side: &'d Side,
    pub numbers: &'d PartNumbers<'c>,
}
