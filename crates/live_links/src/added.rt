//! A link that was added.

use link_order::Link;
use rr_ids::WireId;

/// A link that was added, and the wires to which it brought a feed.
#[derive(Drop)]
pub struct AddedLink {
    pub link: Link,
    pub fed: Vec<WireId>,
}
