//! Both ends of links as nodes.

ghost use Rattle.std.specs.Prelude.{◌≡◌, map, IfOk};

use crate::TableLink;
use cycle_order::NodeId;
use rr_ids::Id;
use std::alloc::{AllocError, Global};

/// The parts from which links lead.
pub(crate) fn link_sources(alloc: Global, links: &[TableLink]) -> Result<Vec<NodeId>, AllocError>
    ensures { IfOk result (λ v. v.items ≡ map (λ l. l.source) links.now) }
{
    links
        .iter()
        .map(|link| NodeId::from_u32(link.source.to_u32()))
        .collect(alloc)
}

/// The tables into which links lead.
pub(crate) fn link_tables(alloc: Global, links: &[TableLink]) -> Result<Vec<NodeId>, AllocError>
    ensures { IfOk result (λ v. v.items ≡ map (λ l. l.table) links.now) }
{
    links
        .iter()
        .map(|link| NodeId::from_u32(link.table.to_u32()))
        .collect(alloc)
}
