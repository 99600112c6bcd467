use super::*;
use plan_graph::Edge;
use sqlite_items::Items;
use std::alloc::{AllocError, Global};
use std::test::Fail;

fn ranges(alloc: Global, words: &[(u32, u32)]) -> Result<Items<WordRange>, AllocError> {
    let mut list = Items::new(alloc);
    for (first, end) in words {
        list.push(WordRange {
            first: *first,
            end: *end,
        })?;
    }
    Ok(list)
}

fn node(alloc: Global, reads: &[(u32, u32)], writes: &[(u32, u32)]) -> Result<Touched, AllocError> {
    let reads = ranges(alloc, reads)?;
    let writes = ranges(alloc, writes)?;
    Ok(Touched { reads, writes })
}

// Four nodes: the first writes words 1 and 2, the second reads 2 and writes 3, the third calls, the last writes 2.
fn four(alloc: Global) -> Result<Vec<Touched>, AllocError> {
    let mut nodes = Vec::new(alloc);
    let first = node(alloc, &[], &[(1, 3)])?;
    nodes.push(first)?;
    let second = node(alloc, &[(2, 3)], &[(3, 4)])?;
    nodes.push(second)?;
    let third = node(alloc, &[], &[])?;
    nodes.push(third)?;
    let last = node(alloc, &[(9, 9)], &[(2, 3)])?;
    nodes.push(last)?;
    Ok(nodes)
}

// The edges of their graph, where there is one.
fn edges(alloc: Global, calls: &[bool]) -> Result<Items<Edge>, AllocError> {
    let nodes = four(alloc)?;
    if nodes.len() != 4 || calls.len() != 4 {
        return Ok(Items::new(alloc));
    }
    let costs = Items::from_slice(alloc, &[1, 1, 1, 1])?;
    match add_hazards(alloc, costs, nodes.as_slice(), calls) {
        Ok(graph) => Ok(graph.edges),
        Err(_) => Ok(Items::new(alloc)),
    }
}

fn has(edges: &Items<Edge>, at: usize, from: u32, to: u32) -> bool {
    edges.as_slice().get(at).copied() == Some(Edge { from, to })
}

#[test]
fn orders_what_shares_a_word(rt: HostRuntime) -> Result<(), Fail> {
    let edges = edges(rt.alloc(), &[false, false, false, false])?;
    assert!(rt; edges.len() == 3);
    assert!(rt; has(&edges, 0, 0, 1));
    assert!(rt; has(&edges, 1, 0, 3));
    assert!(rt; has(&edges, 2, 1, 3));
    Ok(())
}

#[test]
fn calls_make_a_chain(rt: HostRuntime) -> Result<(), Fail> {
    let edges = edges(rt.alloc(), &[true, false, true, true])?;
    assert!(rt; edges.len() == 5);
    assert!(rt; has(&edges, 1, 0, 2));
    assert!(rt; has(&edges, 4, 2, 3));
    Ok(())
}
