//! The edges of each node, in lists and counts.
ghost use Rattle.std.specs.Prelude.{◌≡◌, ◌<◌, ◌==◌, ℕ, true, IfOk, length, [], slice_index, slice_index_or, count_by};
ghost use Rattle.std.specs.List.{list_all};
ghost use Rattle.plan_graph.specs.Graphs.{ends_within, is_among};
ghost use Rattle.order_levels.specs.Sets.{sources_of, targets_of, all_below};

use plan_graph::Edge;
use sqlite_items::Items;
use std::alloc::{AllocError, Global};

#[tactic(auto, using(crate::proofs::EdgeLemmas::all_empty_pushed))]
fn empty_lists(alloc: Global, nodes: u32) -> Result<Vec<Items<u32>>, AllocError>
    ensures len { IfOk result (λ v. length v.items ≡ nodes) }
    ensures empty { IfOk result (λ v. (n : ℕ) → slice_index_or v.items n [] ≡ []) }
{
    let mut lists = Vec::with_capacity(alloc, nodes as usize)?;
    'fill: while lists.len() < nodes as usize {
        lists.push(Items::new(alloc))?;
    }
    Ok(lists)
}

/// For each node, where the edges to it come from.
#[tactic(auto, using(crate::proofs::EdgeLemmas::sources_more, crate::proofs::EdgeLemmas::list_pushed, crate::proofs::EdgeLemmas::to_at))]
pub fn source_lists(
    alloc: Global,
    nodes: u32,
    edges: &[Edge],
) -> Result<Vec<Items<u32>>, AllocError>
    requires { list_all (ends_within nodes) edges.now ≡ true }
    ensures len { IfOk result (λ v. length v.items ≡ nodes) }
    ensures lists { IfOk result (λ v. (n : ℕ) → slice_index_or v.items n [] ≡ sources_of n edges.now) }
{
    let mut lists = empty_lists(alloc, nodes)?;
    for e in edges {
        lists[e.to as usize].push(e.from)?;
    }
    Ok(lists)
}

/// For each node, where the edges from it lead.
#[tactic(auto, using(crate::proofs::EdgeLemmas::targets_more, crate::proofs::EdgeLemmas::list_pushed, crate::proofs::EdgeLemmas::from_at))]
pub fn target_lists(
    alloc: Global,
    nodes: u32,
    edges: &[Edge],
) -> Result<Vec<Items<u32>>, AllocError>
    requires { list_all (ends_within nodes) edges.now ≡ true }
    ensures len { IfOk result (λ v. length v.items ≡ nodes) }
    ensures lists { IfOk result (λ v. (n : ℕ) → slice_index_or v.items n [] ≡ targets_of n edges.now) }
{
    let mut lists = empty_lists(alloc, nodes)?;
    for e in edges {
        lists[e.from as usize].push(e.to)?;
    }
    Ok(lists)
}

/// For each node, how many edges lead to it.
#[tactic(auto, using(crate::proofs::EdgeLemmas::to_at))]
pub fn source_counts(alloc: Global, nodes: u32, edges: &[Edge]) -> Result<Vec<usize>, AllocError>
    requires { list_all (ends_within nodes) edges.now ≡ true }
    ensures len { IfOk result (λ v. length v.items ≡ nodes) }
    ensures counts { IfOk result (λ v. (n : ℕ) → n < nodes → slice_index v.items n ≡ count_by (λ e. e.to == n) edges.now) }
{
    let mut counts: Vec<usize> = vec![in alloc; 0; nodes as usize]?;
    for e in edges {
        counts[e.to as usize] += 1;
    }
    Ok(counts)
}

/// For each node, whether it stands in a list.
#[tactic(auto, using(crate::proofs::EdgeLemmas::below_at))]
pub fn marks_of(alloc: Global, nodes: u32, list: &[u32]) -> Result<Vec<bool>, AllocError>
    requires { all_below nodes list.now ≡ true }
    ensures len { IfOk result (λ v. length v.items ≡ nodes) }
    ensures marks { IfOk result (λ v. (n : ℕ) → n < nodes → slice_index_or v.items n true ≡ is_among n list.now) }
{
    let mut marks = vec![in alloc; false; nodes as usize]?;
    for n in list {
        marks[*n as usize] = true;
    }
    Ok(marks)
}
