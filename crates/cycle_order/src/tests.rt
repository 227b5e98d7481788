use crate::{NodeId, OrderError, order};
use rr_ids::Id;
use std::alloc::{AllocError, Global};
use std::test::Fail;

// Nodes of these numbers.
fn nodes(alloc: Global, numbers: &[u32]) -> Result<Vec<NodeId>, AllocError> {
    let mut nodes = Vec::new(alloc);
    for number in numbers {
        nodes.push(NodeId::from_u32(*number))?;
    }
    Ok(nodes)
}

#[test]
fn nodes_come_after_all_that_lead_to_them(rt: HostRuntime) -> Result<(), Fail> {
    let sources = nodes(rt.alloc(), &[2, 0, 2])?;
    let sinks = nodes(rt.alloc(), &[0, 1, 1])?;
    assert!(rt; sources.iter().all(|node| node.to_u32() < 3));
    assert!(rt; sinks.iter().all(|node| node.to_u32() < 3));
    assert_eq!(rt; sinks.len(), sources.len());
    assert!(rt; sources.len() < 100);
    let Ok(found) = order(rt.alloc(), 3, &sources, &sinks) else {
        panic!(rt; "no order");
    };
    assert_eq!(rt; found, nodes(rt.alloc(), &[2, 0, 1])?);
    Ok(())
}
