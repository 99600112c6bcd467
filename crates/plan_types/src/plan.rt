//! Plans.
ghost use Rattle.std.specs.Prelude.{◌≡◌, length};
ghost use Rattle.plan_types.specs.Plans.{IsValid};

use plan_graph::{Graph, Node, Task};
use sqlite_items::Items;

/// How the nodes of a part run. Each edge of the graph leads from a lower node to a higher one. Each node is in exactly
/// one group, a group runs as one task with its members in serial order, and the groups have no cycle. Each task is in
/// exactly one thread's list. The placement order has each task after those that it waits for, and each thread's list
/// follows it.
#[derive(Drop)]
pub struct ValidPlan {
    /// The nodes in their serial order.
    pub nodes: Items<Node>,
    /// Which of them wait for which, by their places in the serial order.
    pub graph: Graph,
    /// The nodes of each group.
    pub groups: Items<Items<u32>>,
    /// The task of each group.
    pub tasks: Items<Task>,
    /// The tasks of each thread, in the order in which it runs them.
    pub threads: Items<Items<u32>>,
    /// The tasks in the order in which they were placed.
    pub order: Items<u32>,
    ghost costs: { length graph.costs ≡ length nodes },
    ghost valid: { IsValid (length nodes) graph.edges groups tasks threads order },
}
