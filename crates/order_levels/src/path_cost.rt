ghost use Rattle.std.specs.Prelude.{◌≡◌, ◌<◌, ◌≤◌, ◌-◌, ◌*◌, ◌^◌, ℕ, true, replicate, IfOk, length, slice_index};
ghost use Rattle.std.specs.List.{list_all};
ghost use Rattle.plan_graph.specs.Graphs.{ends_within, HasNoCycle, IsCostliest};
ghost use Rattle.order_levels.specs.Sets as sets;

use crate::lists::source_lists;
use crate::running::run_all;
use plan_graph::Edge;
use sqlite_items::Items;
use std::alloc::{AllocError, Global};

/// For each node of a graph without a cycle, what the costliest path that ends with it costs, the node included. On
/// edges that are turned round these are the paths that begin with it.
pub fn costliest_paths(
    alloc: Global,
    nodes: u32,
    edges: &[Edge],
    costs: &[u64],
) -> Result<Vec<u128>, AllocError>
    requires ends { list_all (ends_within nodes) edges.now ≡ true }
    requires no_cycle { HasNoCycle edges.now }
    requires costs { length costs.now ≡ nodes }
    ensures nodes { IfOk result (λ v. length v.items ≡ nodes) }
    ensures costs { IfOk result (λ v. (n : ℕ) → n < nodes → IsCostliest (slice_index costs.now) edges.now n (slice_index v.items n)) }
{
    let order = run_all(alloc, nodes, edges)?;
    let sources = source_lists(alloc, nodes, edges)?;
    costs_along(alloc, sources.as_slice(), order.as_slice(), costs)
}

// Each node of the order gets its cost on top of the greatest of its sources, which stand before it.
fn costs_along(
    alloc: Global,
    sources: &[Items<u32>],
    order: &[u32],
    costs: &[u64],
) -> Result<Vec<u128>, AllocError>
    requires within { sets.each_below (length sources.now) sources.now ≡ true }
    requires order { sets.all_below (length sources.now) order.now ≡ true }
    requires few { length order.now < 2 ^ 32 }
    requires costs { length costs.now ≡ length sources.now }
    ensures len { IfOk result (λ v. length v.items ≡ length sources.now) }
    ensures paths { IfOk result (λ v. v.items ≡ sets.costs_along costs.now sources.now (replicate (length sources.now) 0) order.now) }
{
    let mut paths: Vec<u128> = vec![in alloc; 0; sources.len()]?;
    for n in order {
        let over = greatest_at(paths.as_slice(), sources[*n as usize].as_slice());
        let cost = u128::from(costs[*n as usize]);
        paths[*n as usize] = cost + over;
    }
    Ok(paths)
}

// The greatest of these at the sources, and 0 where there is none.
#[tactic(auto, using(crate::proofs::PathCostLemmas::greatest_more, crate::proofs::EdgeLemmas::below_at))]
fn greatest_at(paths: &[u128], sources: &[u32]) -> u128
    requires within { sets.all_below (length paths.now) sources.now ≡ true }
    ensures greatest { result ≡ sets.greatest_at paths.now sources.now }
    ensures small { (top : ℕ) → ((m : ℕ) → slice_index paths.now m ≤ top) → result ≤ top }
{
    let mut most = 0;
    for m in sources {
        most = most.max(paths[*m as usize]);
    }
    most
}
