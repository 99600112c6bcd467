//! Which nodes of a part must keep their serial order.
//!
//! The nodes of a part run one after another in serial order, or on several threads at once. Two nodes *conflict* where
//! they share a word that one of them writes, or where both call imports that are not deemed safe: then the later one
//! may run only after the earlier one. [`add_hazards`] gives the graph that sees to this. It has an edge from a node to
//! a later one where they share such a word (the hazards *read after write*, *write after read* and *write after
//! write*), or where both make such calls and no node between them does.
//!
//! Nodes that call far apart have no edge of their own: a chain of edges leads from the one to the other, call by call.
//! So each two nodes that conflict are joined by a path, which is what a plan stands on.
//!
//! # Terms
//!
//! Words are told in ranges, as in `logic_graph` ([`Touched`]). `specs/Hazards.antt` has the edges as a list over all
//! pairs of nodes, in ascending order; an edge stands once, however many words two nodes share.
//!
//! # How it is found
//!
//! Each node is compared with each later one. The span of what a node writes, from its first word to its last, is kept,
//! so that ranges are compared one by one only where they lie within a span. Whether a call was made since the node is
//! kept along the later nodes.
//!
//! # What is proved
//!
//! The graph has the costs that were handed in and exactly the edges of the definition, in its order; `TooMany` comes
//! exactly past the limit; each edge leads to a later node; and nodes that conflict have a path. Left open is want of
//! memory.
//!
//! # Cost
//!
//! Time is the number of nodes times the number of ranges of all nodes, and the pairs of ranges of nodes whose spans
//! meet. Space is a span for each node, and the edges. After the first node with which there are more than 65,536 edges
//! it stops.
//!
//! ```text
//! node 0 writes word 1                edges 0-1, 0-2, 1-2
//! node 1 reads 1 and writes 2
//! node 2 reads 2 and writes 1
//! ```
#![tactic(auto)]

mod graph;
mod share;
mod spans;
#[cfg(test)]
mod tests;

pub use graph::add_hazards;
pub use logic_graph::{GraphFault, Touched, WordRange};
