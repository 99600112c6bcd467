//! The turns of packing.
ghost use Rattle.std.specs.Prelude.{◌≡◌, ◌<◌, ◌≤◌, ◌+◌, ◌^◌, ◌++◌, ℕ, true, IfOk, length, List, [], ◌∷◌, slice_index, slice_index_or};
ghost use Rattle.std.specs.List.{list_all, range_with_len};
ghost use Rattle.plan_graph.specs.declared.node.Edge.{Edge};
ghost use Rattle.plan_graph.specs.Graphs.{ends_within, cost_of_all};
ghost use Rattle.plan_graph.specs.ListLaws.{all_below};
ghost use Rattle.order_levels.specs.Running.{Running, IsReadyNow};
ghost use Rattle.thread_pack.specs.Packing.{order_of, packed};
ghost use Rattle.thread_pack.specs.Tables.{Holds};

use crate::choose::choose;
use crate::put::Put;
use crate::table::{Table, empty_table};
use crate::task_graph::TaskGraph;
use order_levels::Turns;
use std::alloc::{AllocError, Global};

/// All tasks in the order of their placement: each turn places the ready task and thread of least start.
pub fn place_all(alloc: Global, graph: &TaskGraph, threads: u32) -> Result<Vec<Put>, AllocError>
    requires few { length graph.now.costs.items < 2 ^ 32 }
    requires ends { list_all (ends_within (length graph.now.costs.items)) graph.now.edges.items ≡ true }
    requires tails { length graph.now.tails.items ≡ length graph.now.costs.items }
    requires fits { cost_of_all (slice_index graph.now.costs.items) (range_with_len 0 (length graph.now.costs.items)) < 2 ^ 63 }
    ensures { IfOk result (λ v. v.items ≡ packed (length graph.now.costs.items) threads graph.now.edges.items (slice_index graph.now.costs.items) (slice_index graph.now.tails.items)) }
{
    let tasks = graph.costs.len();
    let mut turns = Turns::at_first(alloc, tasks as u32, graph.edges.as_slice())?;
    let mut table = empty_table(alloc, tasks, threads as usize)?;
    let mut puts = Vec::with_capacity(alloc, tasks)?;
    for turn in 0..tasks {
        let next = choose(
            &turns.ready,
            table.free.as_slice(),
            table.arrive.as_slice(),
            graph.tails.as_slice(),
        );
        let Some(put) = next else {
            return Ok(puts);
        };
        puts.push(put)?;
        place_one(&mut turns, &mut table, put, graph.costs[put.task as usize]);
    }
    Ok(puts)
}

// A task is placed: the tables and the turns take note of it.
fn place_one(turns: &mut Turns, table: &mut Table, put: Put, cost: u64)
    requires ready { IsReadyNow turns.old.targets.items turns.old.waits.items turns.old.ready.words.items put.task }
    requires node { put.task < length turns.old.targets.items }
    requires within { all_below (length table.old.arrive.items) (slice_index_or turns.old.targets.items put.task []) ≡ true }
    requires thread { put.thread < length table.old.free.items }
    requires fits { put.start + cost + cost < 2 ^ 64 }
    ensures holds { (tasks threads : ℕ) (edges : List Edge) (costs : ℕ → ℕ) (puts : List Put) → costs put.task ≡ cost → Running tasks edges (order_of puts) turns.old.targets.items turns.old.waits.items turns.old.ready.words.items → Holds tasks threads edges costs puts table.old.free.items table.old.arrive.items → Holds tasks threads edges costs (puts ++ put ∷ []) table.new.free.items table.new.arrive.items }
    ensures running { (nodes : ℕ) (edges : List Edge) (ran : List ℕ) → list_all (ends_within nodes) edges ≡ true → Running nodes edges ran turns.old.targets.items turns.old.waits.items turns.old.ready.words.items → Running nodes edges (ran ++ put.task ∷ []) turns.new.targets.items turns.new.waits.items turns.new.ready.words.items }
{
    let targets = turns.targets[put.task as usize].as_slice();
    table.place(put, cost, targets);
    turns.run(put.task);
}
