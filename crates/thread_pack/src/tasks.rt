ghost use Rattle.std.specs.Prelude.{◌≡◌, ◌<◌, ◌≤◌, ◌^◌, ℕ, true, IfOk, length, [], ◌∷◌, map};
ghost use Rattle.std.specs.List.{list_all, range_with_len, sum};
ghost use Rattle.plan_graph.specs.Graphs.{HasNoCycle};
ghost use Rattle.plan_graph.specs.Groupings.{ExactlyOnce, group_edges, keeps};
ghost use Rattle.thread_pack.specs.Packing.{IsPacked, order_of, on_thread, lists_of, task_in};

use crate::put::Put;
use crate::task_graph::task_graph;
use crate::turns::place_all;
use plan_graph::{Graph, Task};
use sqlite_items::Items;
use std::alloc::{AllocError, Global};

/// Where and when tasks run.
#[derive(Drop)]
pub struct Packing {
    /// The thread and the start of each task.
    pub tasks: Items<Task>,
    /// The tasks of each thread, in the order of their placement.
    pub threads: Items<Items<u32>>,
    /// All tasks in the order of their placement.
    pub order: Items<u32>,
}

/// The groups of a graph as tasks on so many threads. A group is ready when all that it waits for are placed. Each turn
/// places the ready group and the thread of least start; ties go to the costlier path that begins with the group, then
/// to the lower group, then to the lower thread. A start is the end of the thread's last task, or the time at which all
/// is there that the group waits for: at the end of each such task, and on another thread a quarter of its cost later,
/// rounded up. Times count costs of nodes.
///
/// Each task is placed once, after all that it waits for, and stands in the list of its thread.
pub fn pack(
    alloc: Global,
    graph: &Graph,
    groups: &[Items<u32>],
    threads: u32,
) -> Result<Packing, AllocError>
    requires grouped { ExactlyOnce (length graph.now.costs) groups.now }
    requires no_cycle { HasNoCycle (group_edges groups.now graph.now.edges) }
    requires costs { sum graph.now.costs < 2 ^ 63 }
    requires threads { 1 ≤ threads }
    ensures packed { IfOk result (λ p. IsPacked graph.now.costs graph.now.edges groups.now threads p.tasks p.threads p.order) }
    ensures placed { IfOk result (λ p. ExactlyOnce (length groups.now) (p.order ∷ [])) }
    ensures upstream { IfOk result (λ p. list_all (keeps p.order) (group_edges groups.now graph.now.edges) ≡ true) }
    ensures threaded { IfOk result (λ p. ExactlyOnce (length groups.now) p.threads) }
{
    // The numbers of groups have 32 bits: a list that is longer has no room.
    if groups.len() >= 1 << 32 {
        return Err(AllocError);
    }
    let tasks = task_graph(alloc, graph, groups)?;
    let puts = place_all(alloc, &tasks, threads)?;
    told(alloc, groups.len(), threads, puts.as_slice())
}

// What the placements tell of tasks, threads and the order.
fn told(alloc: Global, tasks: usize, threads: u32, puts: &[Put]) -> Result<Packing, AllocError>
    ensures tasks { IfOk result (λ p. p.tasks ≡ map (task_in puts.now) (range_with_len 0 tasks)) }
    ensures threads { IfOk result (λ p. p.threads ≡ lists_of threads puts.now) }
    ensures order { IfOk result (λ p. p.order ≡ order_of puts.now) }
{
    let list = tasks_of(alloc, tasks, puts)?;
    let threads = lists_of(alloc, threads, puts)?;
    let order = order_of(alloc, puts)?;
    Ok(Packing {
        tasks: list,
        threads,
        order,
    })
}

// The last placement is noted first, so that the first of each task stays.
fn tasks_of(alloc: Global, tasks: usize, puts: &[Put]) -> Result<Items<Task>, AllocError>
    ensures { IfOk result (λ v. v ≡ map (task_in puts.now) (range_with_len 0 tasks)) }
{
    let mut list = no_tasks(alloc, tasks)?;
    let mut i = puts.len();
    'down: while i > 0 {
        i -= 1;
        let put = puts[i];
        if (put.task as usize) < list.len() {
            list[put.task as usize] = Task {
                thread: put.thread,
                start: put.start,
            };
        }
    }
    Ok(Items::from_vec(list))
}

// Tasks before any is placed.
fn no_tasks(alloc: Global, tasks: usize) -> Result<Vec<Task>, AllocError>
    ensures { IfOk result (λ v. v.items ≡ map (task_in []) (range_with_len 0 tasks)) }
{
    let mut list = Vec::with_capacity(alloc, tasks)?;
    for t in 0..tasks {
        list.push(Task {
            thread: 0,
            start: 0,
        })?;
    }
    Ok(list)
}

fn lists_of(alloc: Global, threads: u32, puts: &[Put]) -> Result<Items<Items<u32>>, AllocError>
    ensures { IfOk result (λ v. v ≡ lists_of threads puts.now) }
{
    let mut lists = Items::new(alloc);
    for thread in 0..threads {
        let list = on_thread(alloc, thread, puts)?;
        lists.push(list)?;
    }
    Ok(lists)
}

fn on_thread(alloc: Global, thread: u32, puts: &[Put]) -> Result<Items<u32>, AllocError>
    ensures { IfOk result (λ v. v ≡ on_thread puts.now thread) }
{
    let mut list = Items::new(alloc);
    for put in puts {
        if put.thread == thread {
            list.push(put.task)?;
        }
    }
    Ok(list)
}

fn order_of(alloc: Global, puts: &[Put]) -> Result<Items<u32>, AllocError>
    ensures { IfOk result (λ v. v ≡ order_of puts.now) }
{
    let mut list = Items::new(alloc);
    for put in puts {
        list.push(put.task)?;
    }
    Ok(list)
}
