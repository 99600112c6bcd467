//! Copies of plans.
ghost use Rattle.std.specs.Prelude.{◌≡◌, IfOk};

use crate::copied::{Copied, copies};
use plan_graph::{Graph, Node};
use plan_types::{Task, ValidPlan};
use sqlite_items::Items;
use std::alloc::{AllocError, Global};

fn copy_graph(alloc: Global, graph: &Graph) -> Result<Graph, AllocError>
    ensures { IfOk result (λ copy. copy ≡ graph.now) }
{
    let costs = Items::from_slice(alloc, graph.costs.as_slice())?;
    let edges = Items::from_slice(alloc, graph.edges.as_slice())?;
    Ok(Graph { costs, edges })
}

impl Copied for Items<u32> {
    fn copied(&self, alloc: Global) -> Result<Items<u32>, AllocError> {
        Items::from_slice(alloc, self.as_slice())
    }
}

// The nodes, and how they are grouped.
#[derive(Drop)]
struct Grouping {
    nodes: Items<Node>,
    graph: Graph,
    groups: Items<Items<u32>>,
}

fn copy_grouping(alloc: Global, plan: &ValidPlan) -> Result<Grouping, AllocError>
    ensures nodes { IfOk result (λ copy. copy.nodes ≡ plan.now.nodes) }
    ensures graph { IfOk result (λ copy. copy.graph ≡ plan.now.graph) }
    ensures groups { IfOk result (λ copy. copy.groups ≡ plan.now.groups) }
{
    let nodes = Items::from_slice(alloc, plan.nodes.as_slice())?;
    let graph = copy_graph(alloc, &plan.graph)?;
    let groups = copies(alloc, plan.groups.as_slice())?;
    Ok(Grouping {
        nodes,
        graph,
        groups,
    })
}

// The tasks, and where they run.
#[derive(Drop)]
struct Placing {
    tasks: Items<Task>,
    threads: Items<Items<u32>>,
    order: Items<u32>,
}

fn copy_placing(alloc: Global, plan: &ValidPlan) -> Result<Placing, AllocError>
    ensures tasks { IfOk result (λ copy. copy.tasks ≡ plan.now.tasks) }
    ensures threads { IfOk result (λ copy. copy.threads ≡ plan.now.threads) }
    ensures order { IfOk result (λ copy. copy.order ≡ plan.now.order) }
{
    let tasks = Items::from_slice(alloc, plan.tasks.as_slice())?;
    let threads = copies(alloc, plan.threads.as_slice())?;
    let order = Items::from_slice(alloc, plan.order.as_slice())?;
    Ok(Placing {
        tasks,
        threads,
        order,
    })
}

/// An equal plan.
pub fn copy_plan(alloc: Global, plan: &ValidPlan) -> Result<ValidPlan, AllocError>
    ensures { IfOk result (λ copy. copy ≡ plan.now) }
{
    let grouping = copy_grouping(alloc, plan)?;
    let placing = copy_placing(alloc, plan)?;
    Ok(ValidPlan {
        nodes: grouping.nodes,
        graph: grouping.graph,
        groups: grouping.groups,
        tasks: placing.tasks,
        threads: placing.threads,
        order: placing.order,
    })
}
