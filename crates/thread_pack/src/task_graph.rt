//! The groups of a graph as the nodes of another.
ghost use Rattle.std.specs.Prelude.{◌≡◌, ◌<◌, ◌≤◌, ◌^◌, ℕ, true, IfOk, length, [], map, if◌then◌else◌, slice_index, slice_index_or};
ghost use Rattle.std.specs.List.{list_all};
ghost use Rattle.plan_graph.specs.Graphs.{ends_within, HasNoCycle, IsCostliest, turned, is_among, cost_of_all};
ghost use Rattle.plan_graph.specs.Groupings.{group_from, group_edges, image};
ghost use Rattle.plan_graph.specs.ListLaws.{all_below};
ghost use Rattle.thread_pack.specs.Packing.{cost_of};

use order_levels::costliest_paths;
use plan_graph::{Edge, Graph};
use sqlite_items::Items;
use std::alloc::{AllocError, Global};

/// What each group costs, which group waits for which, and what the costliest path that begins with each costs.
#[derive(Drop)]
pub struct TaskGraph {
    pub costs: Vec<u64>,
    pub edges: Vec<Edge>,
    pub tails: Vec<u128>,
}

pub fn task_graph(
    alloc: Global,
    graph: &Graph,
    groups: &[Items<u32>],
) -> Result<TaskGraph, AllocError>
    requires few { length groups.now < 2 ^ 32 }
    requires within { list_all (all_below (length graph.now.costs)) groups.now ≡ true }
    requires fits { (k : ℕ) → cost_of graph.now.costs groups.now k < 2 ^ 63 }
    requires ends { list_all (ends_within (length groups.now)) (group_edges groups.now graph.now.edges) ≡ true }
    requires no_cycle { HasNoCycle (group_edges groups.now graph.now.edges) }
    ensures costs_len { IfOk result (λ t. length t.costs.items ≡ length groups.now) }
    ensures costs { IfOk result (λ t. (k : ℕ) → slice_index t.costs.items k ≡ cost_of graph.now.costs groups.now k) }
    ensures edges { IfOk result (λ t. t.edges.items ≡ group_edges groups.now graph.now.edges) }
    ensures tails_len { IfOk result (λ t. length t.tails.items ≡ length groups.now) }
    ensures tails { IfOk result (λ t. (k : ℕ) → k < length groups.now → IsCostliest (cost_of graph.now.costs groups.now) (map turned (group_edges groups.now graph.now.edges)) k (slice_index t.tails.items k)) }
{
    let costs = group_costs(alloc, graph.costs.as_slice(), groups)?;
    let edges = edges_of_groups(alloc, graph, groups)?;
    let tails = tails(
        alloc,
        groups.len() as u32,
        edges.as_slice(),
        costs.as_slice(),
    )?;
    Ok(TaskGraph {
        costs,
        edges,
        tails,
    })
}

fn edges_of_groups(
    alloc: Global,
    graph: &Graph,
    groups: &[Items<u32>],
) -> Result<Vec<Edge>, AllocError>
    requires few { length groups.now < 2 ^ 32 }
    requires within { list_all (all_below (length graph.now.costs)) groups.now ≡ true }
    ensures { IfOk result (λ v. v.items ≡ group_edges groups.now graph.now.edges) }
{
    let numbers = group_numbers(alloc, graph.costs.len(), groups)?;
    edges_under(alloc, numbers.as_slice(), graph.edges.as_slice())
}

// The costliest paths on the edges turned round.
fn tails(alloc: Global, tasks: u32, edges: &[Edge], costs: &[u64]) -> Result<Vec<u128>, AllocError>
    requires ends { list_all (ends_within tasks) edges.now ≡ true }
    requires no_cycle { HasNoCycle edges.now }
    requires costs { length costs.now ≡ tasks }
    ensures len { IfOk result (λ v. length v.items ≡ tasks) }
    ensures tails { IfOk result (λ v. (k : ℕ) → k < tasks → IsCostliest (slice_index costs.now) (map turned edges.now) k (slice_index v.items k)) }
{
    let back = turned(alloc, edges)?;
    costliest_paths(alloc, tasks, back.as_slice(), costs)
}

fn turned(alloc: Global, edges: &[Edge]) -> Result<Vec<Edge>, AllocError>
    ensures { IfOk result (λ v. v.items ≡ map turned edges.now) }
{
    let mut back = Vec::with_capacity(alloc, edges.len())?;
    for e in edges {
        back.push(Edge {
            from: e.to,
            to: e.from,
        })?;
    }
    Ok(back)
}

// What the nodes of each group cost together.
fn group_costs(alloc: Global, costs: &[u32], groups: &[Items<u32>]) -> Result<Vec<u64>, AllocError>
    requires within { list_all (all_below (length costs.now)) groups.now ≡ true }
    requires fits { (k : ℕ) → cost_of costs.now groups.now k < 2 ^ 63 }
    ensures len { IfOk result (λ v. length v.items ≡ length groups.now) }
    ensures costs { IfOk result (λ v. (k : ℕ) → slice_index v.items k ≡ cost_of costs.now groups.now k) }
{
    let mut list = Vec::with_capacity(alloc, groups.len())?;
    for group in groups {
        list.push(cost_of_all(costs, group.as_slice()))?;
    }
    Ok(list)
}

#[tactic(auto, using(crate::proofs::GroupLemmas::below_at))]
fn cost_of_all(costs: &[u32], nodes: &[u32]) -> u64
    requires within { all_below (length costs.now) nodes.now ≡ true }
    requires fits { cost_of_all (slice_index costs.now) nodes.now < 2 ^ 63 }
    ensures { result ≡ cost_of_all (slice_index costs.now) nodes.now }
{
    let mut total = 0;
    for n in nodes {
        total += u64::from(costs[*n as usize]);
    }
    total
}

// For each node the number of the first group that holds it, or the number of groups where none does.
fn group_numbers(alloc: Global, nodes: usize, groups: &[Items<u32>]) -> Result<Vec<u32>, AllocError>
    requires few { length groups.now < 2 ^ 32 }
    requires within { list_all (all_below nodes) groups.now ≡ true }
    ensures len { IfOk result (λ v. length v.items ≡ nodes) }
    ensures numbers { IfOk result (λ v. (n : ℕ) → n < nodes → slice_index v.items n ≡ group_from 0 groups.now n) }
{
    let mut numbers: Vec<u32> = vec![in alloc; groups.len() as u32; nodes]?;
    let mut k = groups.len();
    'down: while k > 0 {
        k -= 1;
        number_all(numbers.as_mut_slice(), groups[k].as_slice(), k as u32);
    }
    Ok(numbers)
}

#[tactic(auto, using(crate::proofs::GroupLemmas::below_at))]
fn number_all(numbers: &mut [u32], group: &[u32], k: u32)
    requires within { all_below (length numbers.old) group.now ≡ true }
    ensures { (n : ℕ) → slice_index numbers.new n ≡ (if is_among n group.now then k else slice_index numbers.old n) }
{
    for n in group {
        numbers[*n as usize] = k;
    }
}

// The edges, each end under its number; those within one number are left out.
fn edges_under(alloc: Global, numbers: &[u32], edges: &[Edge]) -> Result<Vec<Edge>, AllocError>
    requires ends { list_all (ends_within (length numbers.now)) edges.now ≡ true }
    ensures { IfOk result (λ v. v.items ≡ image (slice_index numbers.now) edges.now) }
{
    let mut list = Vec::new(alloc);
    for e in edges {
        let from = numbers[e.from as usize];
        let to = numbers[e.to as usize];
        if from != to {
            list.push(Edge { from, to })?;
        }
    }
    Ok(list)
}
