ghost use Rattle.std.specs.Prelude.{◌≡◌, IfOk, IfErr, OnOk, length, true};
ghost use Rattle.plan_graph.specs.Graphs.{HasNoCycle};
ghost use Rattle.order_levels.specs.Sets.{all_below};
ghost use Rattle.order_levels.specs.Settling.{settling, InOrder};
ghost use Rattle.order_levels.specs.SettlingLaws.{HasEachNode, HasNoneTwice, KeepsEdges};
ghost use Rattle.order_levels.specs.Answers.{TellsStall, TellsLoop};

use crate::fault::LoopFault;
use crate::running::run_all;
use crate::stall::stalled_loop;
use plan_graph::Graph;
use std::alloc::Global;

/// The nodes of a graph in the order of settling: each turn runs the first node, by number, that has not run and all
/// of whose edges come from nodes that have (IEEE 1800-2017 4.7 leaves the order open). So each node stands in it once,
/// after all that it has an edge from, and the graph has no cycle.
///
/// [`LoopFault::Loop`] comes exactly where nodes are left and none is ready. Its list starts the walk from the first
/// node that has not run and goes on with the first such node that has an edge to the last one; once a node repeats,
/// the list is the walk from that node on. Each of its nodes has an edge to the one before it, and the first to the last.
pub fn ready_order(alloc: Global, graph: &Graph) -> Result<Vec<u32>, LoopFault>
    ensures order { IfOk result (λ v. settling (length graph.now.costs) graph.now.edges ≡ InOrder v.items) }
    ensures nodes { IfOk result (λ v. all_below (length graph.now.costs) v.items ≡ true) }
    ensures each { IfOk result (λ v. HasEachNode (length graph.now.costs) v.items) }
    ensures none_twice { IfOk result (λ v. HasNoneTwice v.items) }
    ensures keeps_edges { IfOk result (λ v. KeepsEdges graph.now.edges v.items) }
    ensures no_cycle { OnOk result (HasNoCycle graph.now.edges) }
    ensures stalls { IfErr result (λ f. TellsStall f (settling (length graph.now.costs) graph.now.edges)) }
    ensures goes_round { IfErr result (λ f. TellsLoop f graph.now.edges) }
{
    settle(alloc, graph)
}

fn settle(alloc: Global, graph: &Graph) -> Result<Vec<u32>, LoopFault>
    ensures order { IfOk result (λ v. settling (length graph.now.costs) graph.now.edges ≡ InOrder v.items) }
    ensures stalls { IfErr result (λ f. TellsStall f (settling (length graph.now.costs) graph.now.edges)) }
{
    let nodes = graph.nodes();
    let edges = graph.edges.as_slice();
    let Ok(ran) = run_all(alloc, nodes, edges) else {
        return Err(LoopFault::NoMemory);
    };
    let Ok(stalled) = stalled_loop(alloc, nodes, edges, ran.as_slice()) else {
        return Err(LoopFault::NoMemory);
    };
    let Some(found) = stalled else {
        return Ok(ran);
    };
    Err(LoopFault::Loop(found))
}
