//! Which thread runs which task of a part, and when.
//!
//! The nodes of a part stand in groups, each of which runs as one task. [`pack`] puts all tasks on threads, one after the
//! other: list scheduling with the costliest path as the measure of what is urgent (R. L. Graham, Bounds on
//! multiprocessing timing anomalies, 1969), with a price on what goes from one thread to another.
//!
//! # Terms
//!
//! - a task *waits for* another where an edge leads from a node of the other to one of its own;
//! - it is *ready* when it is not placed and all that it waits for are;
//! - its *tail* is what the costliest path costs that begins with it;
//! - a *placement* ([`Put`]) is a task on a thread at a start. Its end is the start plus its cost.
//!
//! `specs/Packing.antt` has the packing as a function: each turn looks at all ready tasks on all threads.
//!
//! # How it is found
//!
//! The turns of `order_levels` keep the set of ready tasks. A table keeps since when each thread is free, and for each
//! task and thread when all is there that the task waits for, which is raised at each placement and fixed once the task
//! is ready. So a turn costs one step for each ready task and thread.
//!
//! # What is proved
//!
//! [`pack`] gives exactly the packing of the definition. Each task is placed once, after all that it waits for, and is in
//! exactly one thread's list, which is in the order of placement. Left open is want of memory.
//!
//! # Cost
//!
//! Time is the number of ready tasks times threads at each turn, at most tasks squared times threads, and edges times
//! threads. Space is tasks times threads, and the edges.
//!
//! ```text
//! costs 8, 1, 1     edges 0-2 1-2     2 threads
//! task 0 on thread 0 at 0, task 1 on thread 1 at 0
//! task 2 on thread 0 at 8; on thread 1 it could begin at 8 + 2
//! ```
#![tactic(auto)]

mod choose;
mod put;
mod table;
mod task_graph;
mod tasks;
#[cfg(test)]
mod tests;
mod turns;

pub use put::Put;
pub use tasks::{Packing, pack};
