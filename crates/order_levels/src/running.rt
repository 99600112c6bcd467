//! The turns of settling.
ghost use Rattle.std.specs.Prelude.{◌≡◌, ◌<◌, ◌≤◌, ◌+◌, ◌*◌, ◌==◌, ◌||◌, ◌&&◌, ℕ, true, not, nat_lt, IfOk, length, List, [], ◌∷◌, ◌++◌, if◌then◌else◌, slice_index, slice_index_or, count_by, vec_len};
ghost use Rattle.std.specs.List.{list_all};
ghost use Rattle.plan_graph.specs.Graphs.{ends_within, is_among};
ghost use Rattle.order_levels.specs.Settling.{all_run};
ghost use Rattle.node_sets.specs.Sets.{is_member};
ghost use Rattle.order_levels.specs.Sets.{all_below};
ghost use Rattle.order_levels.specs.Running.{Running, CanRun, IsReadyNow};

use crate::lists::{source_counts, target_lists};
use node_sets::NodeSet;
use plan_graph::Edge;
use sqlite_items::Items;
use std::alloc::{AllocError, Global};

/// What the turns look at besides the nodes that have run. Whoever picks the nodes himself may take his turns by
/// [`Turns::run`].
#[derive(Drop)]
pub struct Turns {
    /// For each node, where the edges from it lead.
    pub targets: Vec<Items<u32>>,
    /// For each node, how many edges to it come from nodes that have not run.
    pub waits: Vec<usize>,
    /// The nodes that have not run and wait for none.
    pub ready: NodeSet,
}

/// The nodes that run, in the order of settling.
pub fn run_all(alloc: Global, nodes: u32, edges: &[Edge]) -> Result<Vec<u32>, AllocError>
    requires { list_all (ends_within nodes) edges.now ≡ true }
    ensures { IfOk result (λ v. v.items ≡ all_run nodes edges.now) }
{
    let mut turns = turns_at_first(alloc, nodes, edges)?;
    let mut ran = Vec::with_capacity(alloc, nodes as usize)?;
    for turn in 0..nodes {
        let Some(n) = turns.ready.first() else {
            return Ok(ran);
        };
        ran.push(n)?;
        run_node(&mut turns, n);
    }
    Ok(ran)
}

impl Turns {
    /// The turns of a graph of so many nodes before any has run.
    pub fn at_first(alloc: Global, nodes: u32, edges: &[Edge]) -> Result<Turns, AllocError>
        requires ends { list_all (ends_within nodes) edges.now ≡ true }
        ensures running { IfOk result (λ t. Running nodes edges.now [] t.targets.items t.waits.items t.ready.words.items) }
    {
        turns_at_first(alloc, nodes, edges)
    }

    /// A node that is ready has run: it is ready no more, and those that waited for it alone are.
    pub fn run(&mut self, n: u32)
        requires ready { IsReadyNow self.old.targets.items self.old.waits.items self.old.ready.words.items n }
        ensures running { (nodes : ℕ) (edges : List Edge) (ran : List ℕ) → list_all (ends_within nodes) edges ≡ true → Running nodes edges ran self.old.targets.items self.old.waits.items self.old.ready.words.items → Running nodes edges (ran ++ n ∷ []) self.new.targets.items self.new.waits.items self.new.ready.words.items }
    {
        run_node(self, n);
    }
}

#[tactic(auto, using(crate::proofs::RunLemmas::running_at_first))]
fn turns_at_first(alloc: Global, nodes: u32, edges: &[Edge]) -> Result<Turns, AllocError>
    requires { list_all (ends_within nodes) edges.now ≡ true }
    ensures { IfOk result (λ t. Running nodes edges.now [] t.targets.items t.waits.items t.ready.words.items) }
{
    let targets = target_lists(alloc, nodes, edges)?;
    let waits = source_counts(alloc, nodes, edges)?;
    let ready = ready_at_first(alloc, nodes, waits.as_slice())?;
    Ok(Turns {
        targets,
        waits,
        ready,
    })
}

// The nodes to which no edge leads.
fn ready_at_first(alloc: Global, nodes: u32, waits: &[usize]) -> Result<NodeSet, AllocError>
    requires { length waits.now ≡ nodes }
    ensures members { IfOk result (λ s. (m : ℕ) → is_member s.words.items m ≡ (nat_lt m nodes && (slice_index waits.now m == 0))) }
    ensures room { IfOk result (λ s. nodes ≤ 64 * vec_len s.words) }
{
    let mut ready = NodeSet::new(alloc, nodes)?;
    for n in 0..nodes {
        if waits[n as usize] == 0 {
            ready.insert(n);
        }
    }
    Ok(ready)
}

// A node has run: it is ready no more, and its targets wait for one less.
fn run_node(turns: &mut Turns, n: u32)
    requires { CanRun turns.old.targets.items turns.old.waits.items turns.old.ready.words.items n }
    ensures targets { turns.new.targets.items ≡ turns.old.targets.items }
    ensures waits_len { length turns.new.waits.items ≡ length turns.old.waits.items }
    ensures words_len { length turns.new.ready.words.items ≡ length turns.old.ready.words.items }
    ensures counts { (m : ℕ) → slice_index turns.new.waits.items m + count_by (λ t. t == m) (slice_index_or turns.old.targets.items n []) ≡ slice_index turns.old.waits.items m }
    ensures members { (m : ℕ) → is_member turns.new.ready.words.items m ≡ ((not (m == n) && is_member turns.old.ready.words.items m) || (is_among m (slice_index_or turns.old.targets.items n []) && (slice_index turns.new.waits.items m == 0))) }
{
    turns.ready.remove(n);
    let targets = turns.targets[n as usize].as_slice();
    release(turns.waits.as_mut_slice(), &mut turns.ready, targets);
}

// The targets wait for one less, and those that then wait for none are ready.
fn release(waits: &mut [usize], ready: &mut NodeSet, targets: &[u32])
    requires within { all_below (length waits.old) targets.now ≡ true }
    requires room { length waits.old ≤ 64 * vec_len ready.old.words }
    requires counted { (m : ℕ) → count_by (λ t. t == m) targets.now ≤ slice_index waits.old m }
    ensures counts { (m : ℕ) → slice_index waits.new m + count_by (λ t. t == m) targets.now ≡ slice_index waits.old m }
    ensures members { (m : ℕ) → is_member ready.new.words.items m ≡ (is_member ready.old.words.items m || (is_among m targets.now && (slice_index waits.new m == 0))) }
    ensures room { vec_len ready.new.words ≡ vec_len ready.old.words }
{
    for t in targets {
        release_one(waits, ready, *t);
    }
}

fn release_one(waits: &mut [usize], ready: &mut NodeSet, t: u32)
    requires within { t < length waits.old }
    requires room { length waits.old ≤ 64 * vec_len ready.old.words }
    requires counted { 0 < slice_index waits.old t }
    ensures counts { (m : ℕ) → slice_index waits.new m + (if t == m then 1 else 0) ≡ slice_index waits.old m }
    ensures members { (m : ℕ) → is_member ready.new.words.items m ≡ (is_member ready.old.words.items m || ((t == m) && (slice_index waits.new m == 0))) }
    ensures room { vec_len ready.new.words ≡ vec_len ready.old.words }
{
    waits[t as usize] -= 1;
    if waits[t as usize] == 0 {
        ready.insert(t);
    }
}
