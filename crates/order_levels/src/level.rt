ghost use Rattle.std.specs.Prelude.{◌≡◌, ◌<◌, ◌≤◌, ◌+◌, ◌-◌, ◌^◌, ℕ, true, replicate, IfOk, length, slice_index};
ghost use Rattle.plan_graph.specs.Graphs.{HasNoCycle, IsLevel};
ghost use Rattle.order_levels.specs.Sets as sets;

use crate::lists::source_lists;
use crate::running::run_all;
use plan_graph::Graph;
use sqlite_items::Items;
use std::alloc::{AllocError, Global};

/// The level of each node: the number of edges of the longest path to it.
pub fn levels(alloc: Global, graph: &Graph) -> Result<Vec<u32>, AllocError>
    requires no_cycle { HasNoCycle graph.now.edges }
    ensures nodes { IfOk result (λ v. length v.items ≡ length graph.now.costs) }
    ensures levels { IfOk result (λ v. (n : ℕ) → n < length graph.now.costs → IsLevel graph.now.edges n (slice_index v.items n)) }
{
    let nodes = graph.nodes();
    let edges = graph.edges.as_slice();
    let order = run_all(alloc, nodes, edges)?;
    let sources = source_lists(alloc, nodes, edges)?;
    levels_along(alloc, sources.as_slice(), order.as_slice())
}

// Each node of the order gets its level from those of its sources, which stand before it.
fn levels_along(
    alloc: Global,
    sources: &[Items<u32>],
    order: &[u32],
) -> Result<Vec<u32>, AllocError>
    requires within { sets.each_below (length sources.now) sources.now ≡ true }
    requires order { sets.all_below (length sources.now) order.now ≡ true }
    requires few { length order.now < 2 ^ 32 }
    ensures len { IfOk result (λ v. length v.items ≡ length sources.now) }
    ensures levels { IfOk result (λ v. v.items ≡ sets.levels_along sources.now (replicate (length sources.now) 0) order.now) }
{
    let mut levels: Vec<u32> = vec![in alloc; 0; sources.len()]?;
    for n in order {
        let level = level_over(levels.as_slice(), sources[*n as usize].as_slice());
        levels[*n as usize] = level;
    }
    Ok(levels)
}

// One more than the greatest level of the sources, and 0 where there is none.
#[tactic(auto, using(crate::proofs::LevelLemmas::level_over_more, crate::proofs::EdgeLemmas::below_at))]
fn level_over(levels: &[u32], sources: &[u32]) -> u32
    requires within { sets.all_below (length levels.now) sources.now ≡ true }
    requires small { (m : ℕ) → slice_index levels.now m < 2 ^ 32 - 1 }
    ensures level { result ≡ sets.level_over levels.now sources.now }
    ensures small { (top : ℕ) → ((m : ℕ) → slice_index levels.now m ≤ top) → result ≤ top + 1 }
{
    let mut most = 0;
    for m in sources {
        most = most.max(levels[*m as usize] + 1);
    }
    most
}
