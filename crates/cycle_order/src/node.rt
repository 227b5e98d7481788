//! Numbers of nodes.

use rr_ids::Number;

/// Marks the numbers of nodes.
pub struct OfNode;

/// The number of a node.
pub type NodeId = Number<OfNode>;
