//! The order in which the nodes of a graph settle, their levels, and the nodes of a part in serial order.
//!
//! # What comes in and out
//!
//! [`ready_order`] takes the graph of the combinational processes, where an edge leads from each writer to each other
//! process that reads what it writes, and gives the order in which they run. Each turn runs the first process, in
//! elaboration order, that has not run and waits for none that has not; IEEE 1800-2017 4.7 leaves the order open, and
//! this one runs each process once. Where processes are left and none is ready, settling *stalls*, and the answer is
//! a loop of processes that wait for each other. [`levels`] gives the number of edges of the longest path to each
//! node, and [`costliest_paths`] what the costliest path to it costs. [`Turns`] takes the same turns with nodes that the
//! caller picks among the ready ones. [`part_nodes`] makes the list of nodes of a part from a settle order, and [`has_too_many_nodes`] tells before
//! there is an order whether that list is too long.
//!
//! # Definitions
//!
//! `specs/Settling.antt` scans all nodes anew each turn, and knows no counts. A node is *ready* when it has not run and
//! every edge to it comes from one that has. The loop of a stall comes from a walk that starts at the first node that
//! has not run. What *holds up* a node is the first one that has not run and has an edge to it, and the walk goes
//! from each node to what holds it up; once it comes to a node again, what it walked from that node on is the loop.
//! `specs/Serial.antt` has the serial order of the two parts.
//!
//! # Algorithm
//!
//! The turns are those of Kahn (Topological sorting of large networks, 1962): for each node a list of where its edges
//! lead and a count of the nodes that it waits for, and a set of those that are ready. Running a node takes it out of the set
//! and one from the count of each of its targets, and puts those that come to 0 into the set. The set has one bit a
//! node ([`trailing_zeros`](u64::trailing_zeros) finds the least), so that a turn goes over one word for each 64 nodes.
//! The walk keeps marks of the nodes that have run and that it has seen, and lists of where the edges to each node
//! come from. Levels and costliest paths go along the order: each stands over the greatest of the sources.
//!
//! # What is proved
//!
//! The settle order, or the loop, is that of the definition, whatever the edges. An order has each node once and each
//! node after all that it has an edge from; the nodes of a loop have an edge each to the one before it, and the first
//! to the last, so that there is an order exactly where there is no cycle. A level is the number of edges of some path
//! to the node, and no path has more; a costliest path costs what some path does, and none costs more. After each of its
//! turns [`Turns`] holds exactly the ready nodes. The nodes of a part are the list of the definition, and the answer 'too many'
//! comes exactly past the limit. Left open is want of memory.
//!
//! # Cost
//!
//! Time is linear in nodes and edges, but for the scan of the set: nodes squared over 64, which is a million words at
//! 8,192 nodes. Space is linear in nodes and edges.
//!
//! ```text
//! edges 3-0 3-1 0-2 1-2         the order is 3 0 1 2, the levels are 1 1 2 0
//! edges 1-0 3-1 2-1 4-2 1-4     node 3 runs; 0 waits for 1, which waits for 2, that for 4, and that for 1:
//!                               the loop is 1 2 4
//! ```
#![tactic(auto)]

mod fault;
mod level;
mod lists;
mod order;
mod path_cost;
mod running;
mod serial;
mod stall;

pub use fault::{LoopFault, NodesFault};
pub use level::levels;
pub use order::ready_order;
pub use path_cost::costliest_paths;
pub use running::Turns;
pub use serial::{has_too_many_nodes, part_nodes};
