//! The order and the levels of graphs by hand.

use order_levels::{LoopFault, levels, ready_order};
use plan_graph::{Edge, Graph};
use sqlite_items::Items;
use std::alloc::{AllocError, Global};
use std::test::Fail;

// A graph of so many nodes with these edges.
fn graph_of(alloc: Global, nodes: u32, ends: &[(u32, u32)]) -> Result<Option<Graph>, AllocError> {
    let mut costs = Items::new(alloc);
    for _ in 0..nodes {
        costs.push(1)?;
    }
    let mut edges = Items::new(alloc);
    for (from, to) in ends {
        edges.push(Edge {
            from: *from,
            to: *to,
        })?;
    }
    Ok(Graph::new(costs, edges))
}

// The settle order, or the loop.
fn settled(alloc: Global, nodes: u32, ends: &[(u32, u32)]) -> Result<(bool, Vec<u32>), AllocError> {
    let Some(graph) = graph_of(alloc, nodes, ends)? else {
        return Ok((false, Vec::new(alloc)));
    };
    match ready_order(alloc, &graph) {
        Ok(order) => Ok((true, order)),
        Err(LoopFault::Loop(found)) => Ok((false, found)),
        Err(LoopFault::NoMemory) => Err(AllocError),
    }
}

#[test]
fn settles_or_tells_the_loop(rt: HostRuntime) -> Result<(), Fail> {
    let diamond = settled(rt.alloc(), 4, &[(3, 0), (3, 1), (0, 2), (1, 2)])?;
    assert!(rt; diamond.0);
    assert_eq!(rt; diamond.1.as_slice(), [3, 0, 1, 2].as_slice());
    let ring = settled(rt.alloc(), 5, &[(1, 0), (3, 1), (2, 1), (4, 2), (1, 4)])?;
    assert!(rt; !ring.0);
    assert_eq!(rt; ring.1.as_slice(), [1, 2, 4].as_slice());
    Ok(())
}

#[test]
fn tells_levels(rt: HostRuntime) -> Result<(), Fail> {
    let made = graph_of(rt.alloc(), 4, &[(0, 1), (0, 2), (1, 3), (2, 3)])?;
    let graph = made.ok_or("no graph")?;
    let Ok(order) = ready_order(rt.alloc(), &graph) else {
        return Err("no order".into());
    };
    let found = levels(rt.alloc(), &graph)?;
    assert_eq!(rt; order.as_slice(), [0, 1, 2, 3].as_slice());
    assert_eq!(rt; found.as_slice(), [0, 1, 1, 2].as_slice());
    Ok(())
}
