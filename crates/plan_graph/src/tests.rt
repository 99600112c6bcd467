use super::*;
use sqlite_items::Items;
use std::alloc::{AllocError, Global};
use std::test::Fail;

fn edges_of(alloc: Global, ends: &[(u32, u32)]) -> Result<Items<Edge>, AllocError> {
    let mut edges = Items::new(alloc);
    for (from, to) in ends {
        edges.push(Edge {
            from: *from,
            to: *to,
        })?;
    }
    Ok(edges)
}

// How many nodes the graph of so many nodes and these edges has, where there is one.
fn nodes(alloc: Global, costs: &[u32], ends: &[(u32, u32)]) -> Result<Option<u32>, AllocError> {
    let costs = Items::from_slice(alloc, costs)?;
    let edges = edges_of(alloc, ends)?;
    Ok(Graph::new(costs, edges).map(|graph| graph.nodes()))
}

#[test]
fn refuses_ends_that_are_no_nodes(rt: HostRuntime) -> Result<(), Fail> {
    let diamond = [(0, 1), (0, 2), (1, 3), (2, 3)];
    assert!(rt; nodes(rt.alloc(), &[5, 3, 3, 1], &diamond)? == Some(4));
    assert!(rt; nodes(rt.alloc(), &[5, 3, 3], &diamond)?.is_none());
    assert!(rt; nodes(rt.alloc(), &[], &[])? == Some(0));
    Ok(())
}
