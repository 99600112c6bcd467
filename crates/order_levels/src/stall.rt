//! What holds up the nodes that have not run.
ghost use Rattle.std.specs.Prelude.{◌≡◌, ◌<◌, ◌≤◌, ◌==◌, ◌^◌, ◌&&◌, ℕ, suc, true, not, nat_lt, IfOk, length, [], None, Some, slice_index_or, MatchOption, min};
ghost use Rattle.std.specs.List.{list_all, position_or_len};
ghost use Rattle.plan_graph.specs.Graphs.{ends_within, is_among};
ghost use Rattle.order_levels.specs.Settling.{InOrder, Stalls, after_run, first_left, first_below, walk_turns, list_from};
ghost use Rattle.order_levels.specs.Sets.{all_below, each_below, holder_in, unmarked};

use crate::lists::{marks_of, source_lists};
use plan_graph::Edge;
use sqlite_items::Items;
use std::alloc::{AllocError, Global};

/// The loop that the first node leads to that has not run, or nothing where all have run.
pub fn stalled_loop(
    alloc: Global,
    nodes: u32,
    edges: &[Edge],
    ran: &[u32],
) -> Result<Option<Vec<u32>>, AllocError>
    requires ends { list_all (ends_within nodes) edges.now ≡ true }
    requires ran { all_below nodes ran.now ≡ true }
    ensures { IfOk result (λ o. MatchOption o (after_run nodes edges.now ran.now (first_left nodes ran.now) ≡ InOrder ran.now) (λ v. after_run nodes edges.now ran.now (first_left nodes ran.now) ≡ Stalls v.items)) }
{
    let has_run = marks_of(alloc, nodes, ran)?;
    let Some(start) = first_unmarked(has_run.as_slice()) else {
        return Ok(None);
    };
    let sources = source_lists(alloc, nodes, edges)?;
    let found = walk(alloc, sources.as_slice(), has_run.as_slice(), start)?;
    Ok(Some(found))
}

#[tactic(auto, using(crate::proofs::FirstLemmas::first_some, crate::proofs::FirstLemmas::first_none))]
fn first_unmarked(marks: &[bool]) -> Option<u32>
    requires { length marks.now < 2 ^ 32 }
    ensures { result ≡ first_below (λ m. not (slice_index_or marks.now m true)) (length marks.now) }
{
    for i in 0..marks.len() {
        if !marks[i] {
            return Some(i as u32);
        }
    }
    None
}

// The walk from each node to the first source of it that has not run, until a node repeats.
fn walk(
    alloc: Global,
    sources: &[Items<u32>],
    has_run: &[bool],
    start: u32,
) -> Result<Vec<u32>, AllocError>
    requires within { each_below (length sources.now) sources.now ≡ true }
    requires marks { length has_run.now ≡ length sources.now }
    requires start { start < length sources.now }
    ensures { IfOk result (λ v. v.items ≡ walk_turns (suc (length sources.now)) (holder_in sources.now has_run.now) [] (Some start)) }
{
    let mut seen = vec![in alloc; false; sources.len()]?;
    let mut walked = Vec::new(alloc);
    let mut next = Some(start);
    for turn in 0..sources.len() + 1 {
        let Some(n) = next else {
            return Ok(Vec::new(alloc));
        };
        if seen[n as usize] {
            return list_from(alloc, n, walked.as_slice());
        }
        seen[n as usize] = true;
        walked.push(n)?;
        next = first_holder(sources[n as usize].as_slice(), has_run);
    }
    Ok(Vec::new(alloc))
}

// The least of the sources that has not run.
#[tactic(auto, using(crate::proofs::StallLemmas::holder_same, crate::proofs::StallLemmas::holder_more, crate::proofs::EdgeLemmas::below_at))]
fn first_holder(sources: &[u32], has_run: &[bool]) -> Option<u32>
    requires { all_below (length has_run.now) sources.now ≡ true }
    ensures { result ≡ first_below (unmarked has_run.now sources.now) (length has_run.now) }
{
    let mut least = None;
    for m in sources {
        if !has_run[*m as usize] {
            least = Some(least_of(least, *m));
        }
    }
    least
}

fn least_of(least: Option<u32>, m: u32) -> u32
    ensures { MatchOption least (result ≡ m) (λ k. result ≡ min k m) }
{
    let Some(k) = least else {
        return m;
    };
    k.min(m)
}

// The part of a list from a number on.
fn list_from(alloc: Global, n: u32, list: &[u32]) -> Result<Vec<u32>, AllocError>
    ensures { IfOk result (λ v. v.items ≡ list_from n list.now) }
{
    let at = place_of(n, list);
    Vec::from_slice(alloc, &list[at..])
}

// The first place of a number in a list, or the list's length.
#[tactic(auto, using(std::proofs::lemmas::List::Sums::position_or_len_is))]
fn place_of(n: u32, list: &[u32]) -> usize
    ensures within { result ≤ length list.now }
    ensures place { position_or_len (λ m. m == n) list.now ≡ result }
{
    for i in 0..list.len() {
        if list[i] == n {
            return i;
        }
    }
    list.len()
}
