ghost use Rattle.std.specs.Prelude.{◌≤◌};

use super::*;
use plan_graph::{Edge, Graph, Task};
use sqlite_items::Items;
use std::alloc::{AllocError, Global};
use std::test::Fail;

// Four nodes, of which 2 waits for 0 and 1, and 3 for 2; the last two are one group.
fn packed(alloc: Global, threads: u32) -> Result<Option<Packing>, AllocError>
    requires { 1 ≤ threads }
{
    let first = Items::from_slice(alloc, &[0])?;
    let second = Items::from_slice(alloc, &[1])?;
    let last = Items::from_slice(alloc, &[2, 3])?;
    let groups = [first, second, last];
    let costs = Items::from_slice(alloc, &[8, 1, 1, 1])?;
    let edges = Items::from_slice(
        alloc,
        &[
            Edge { from: 0, to: 2 },
            Edge { from: 1, to: 2 },
            Edge { from: 2, to: 3 },
        ],
    )?;
    let Some(graph) = Graph::new(costs, edges) else {
        return Ok(None);
    };
    let packed = pack(alloc, &graph, &groups, threads)?;
    Ok(Some(packed))
}

fn is_at(pack: &Packing, task: usize, thread: u32, start: u64) -> bool {
    pack.tasks.as_slice().get(task).copied() == Some(Task { thread, start })
}

#[test]
fn waits_for_what_comes_from_afar(rt: HostRuntime) -> Result<(), Fail> {
    let Some(pack) = packed(rt.alloc(), 2)? else {
        return Ok(());
    };
    assert!(rt; is_at(&pack, 0, 0, 0));
    assert!(rt; is_at(&pack, 1, 1, 0));
    assert!(rt; is_at(&pack, 2, 0, 8));
    assert!(rt; pack.order.len() == 3 && pack.threads.len() == 2);
    Ok(())
}

#[test]
fn one_thread_has_all(rt: HostRuntime) -> Result<(), Fail> {
    let Some(pack) = packed(rt.alloc(), 1)? else {
        return Ok(());
    };
    assert!(rt; is_at(&pack, 1, 0, 8));
    assert!(rt; is_at(&pack, 2, 0, 9));
    Ok(())
}
