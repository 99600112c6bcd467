//! Plans of one group.
ghost use Rattle.std.specs.Prelude.{◌≡◌, ◌∷◌, [], true, length, IfOk};
ghost use Rattle.std.specs.List.{list_all, range_with_len};
ghost use Rattle.plan_graph.specs.GraphLaws.{rises};
ghost use Rattle.plan_types.specs.OneTask.{groups_of, lists_of, numbers_of, first_tasks};

use crate::plan::ValidPlan;
use dpi_host::NoMemory;
use plan_graph::{Graph, Node, Task};
use sqlite_items::Items;
use std::alloc::Global;

impl ValidPlan {
    /// The plan that runs all nodes as one task of thread 0, which starts at 0, in their serial order; where there is no node
    /// there is no task. `NoMemory`: there was none left.
    pub fn one_task(alloc: Global, nodes: Items<Node>, graph: Graph) -> Result<ValidPlan, NoMemory>
        requires costs { length graph.costs ≡ length nodes }
        requires rising { list_all rises graph.edges ≡ true }
        ensures nodes { IfOk result (λ plan. plan.nodes ≡ nodes) }
        ensures graph { IfOk result (λ plan. plan.graph ≡ graph) }
        ensures groups { IfOk result (λ plan. plan.groups ≡ groups_of (length nodes)) }
        ensures tasks { IfOk result (λ plan. plan.tasks ≡ first_tasks (length nodes)) }
        ensures threads { IfOk result (λ plan. plan.threads ≡ lists_of (length nodes)) }
        ensures order { IfOk result (λ plan. plan.order ≡ numbers_of (length nodes)) }
    {
        let groups = groups(alloc, graph.nodes())?;
        let placed = placed(alloc, graph.nodes())?;
        let threads = one(alloc, placed.list)?;
        Ok(ValidPlan {
            nodes,
            graph,
            groups,
            tasks: placed.tasks,
            threads,
            order: placed.order,
        })
    }
}

// The task, where there is a node; the list of the thread, and the order of placement.
#[derive(Drop)]
struct Placing {
    tasks: Items<Task>,
    list: Items<u32>,
    order: Items<u32>,
}

fn placed(alloc: Global, nodes: u32) -> Result<Placing, NoMemory>
    ensures tasks { IfOk result (λ p. p.tasks ≡ first_tasks nodes) }
    ensures list { IfOk result (λ p. p.list ≡ numbers_of nodes) }
    ensures order { IfOk result (λ p. p.order ≡ numbers_of nodes) }
{
    if nodes == 0 {
        return Ok(Placing {
            tasks: Items::new(alloc),
            list: Items::new(alloc),
            order: Items::new(alloc),
        });
    }
    let tasks = one(
        alloc,
        Task {
            thread: 0,
            start: 0,
        },
    )?;
    let list = one(alloc, 0)?;
    let order = one(alloc, 0)?;
    Ok(Placing { tasks, list, order })
}

// All nodes in one group, where there is a node.
fn groups(alloc: Global, nodes: u32) -> Result<Items<Items<u32>>, NoMemory>
    ensures { IfOk result (λ it. it ≡ groups_of nodes) }
{
    if nodes == 0 {
        return Ok(Items::new(alloc));
    }
    let group = first(alloc, nodes)?;
    one(alloc, group)
}

// The numbers below a bound.
fn first(alloc: Global, bound: u32) -> Result<Items<u32>, NoMemory>
    ensures { IfOk result (λ it. it ≡ range_with_len 0 bound) }
{
    let mut list = Items::new(alloc);
    for n in 0..bound {
        let Ok(()) = list.push(n) else {
            return Err(NoMemory);
        };
    }
    Ok(list)
}

// A list of one.
fn one<T: Drop>(alloc: Global, item: T) -> Result<Items<T>, NoMemory>
    ensures { IfOk result (λ it. it ≡ item ∷ []) }
{
    let mut list = Items::new(alloc);
    let Ok(()) = list.push(item) else {
        return Err(NoMemory);
    };
    Ok(list)
}
