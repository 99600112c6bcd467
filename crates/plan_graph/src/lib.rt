//! The nodes that a plan runs, and the graph of which of them wait for which.
//!
//! A run of the design has two parts ([`Part`]). *Settle* runs the combinational processes until all of them have run
//! once. *Clocked* runs the bodies of the clocked processes, then their commits, then the combinational processes
//! again. What runs as one piece is a [`Node`]: a combinational process, the body of a clocked one, which keeps its
//! nonblocking writes apart, or its commit, which puts them in place (IEEE 1800-2017 4.4.2.3 and 10.4.2).
//!
//! A [`Graph`] has one cost for each node and a list of edges ([`Edge`]); its nodes are numbered from 0. An edge says
//! that its `to` runs after its `from`. The type keeps that there are fewer than 2^32 nodes and that both ends of each
//! edge are nodes; an edge may stand in the list twice, and a node may have one to itself. A [`Task`] says where and when
//! a group of nodes runs.
//!
//! # Terms
//!
//! `specs/Graphs.antt` has the terms that all planning speaks of, on the list of edges alone:
//!
//! - a *path* to a node, told from its end: each node of it has an edge to the one before;
//! - a *cycle*, which is a path to a node that the node itself stands on;
//! - the *level* of a node, which is the number of edges of the longest path to it;
//! - what *leads* where, by a path of one edge or more; and the *costliest* path to a node, whose nodes cost most together.
//!
//! `specs/Groupings.antt` has those of groups: when each node is in one, which group waits for which, and places in an
//! order.
//!
//! `specs/GraphLaws.antt`, `specs/PathLaws.antt` and `specs/ListLaws.antt` have what follows for every list of edges or
//! numbers: where each edge leads from a lower number to a higher one there is no cycle; paths can be joined; edges under
//! other names lead as the edges do; a list of different numbers below a bound is no longer than the bound.
//!
//! # What is proved
//!
//! [`Graph::new`] refuses exactly the lists with an end that is no node, or with too many nodes.
//!
//! # Cost
//!
//! [`Graph::new`] goes over the edges once. Nothing else takes more than a few steps.
//!
//! ```text
//! costs 5, 3, 3, 1   edges 0-1 0-2 1-3 2-3
//! 3 1 0              is a path to 3, with two edges
//! levels             0, 1, 1, 2
//! ```
#![tactic(auto)]

mod graph;
mod node;
mod task;
#[cfg(test)]
mod tests;

pub use graph::Graph;
pub use node::{Edge, Node, Part};
pub use task::Task;
