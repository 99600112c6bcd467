//! Which combinational process waits for which.
//!
//! A combinational process waits for each other one that writes a word which it reads: it has to run after them, or it
//! would read what they have not written yet (IEEE 1800-2017 9.2.2.2 has such a process run again where its inputs
//! change; in an order that keeps all edges once is enough). This crate gives the graph of these waits ([`graph_of`]):
//! the nodes are the combinational processes in elaboration order, with their costs, and an edge leads from each
//! writer of a word to each other process that reads it. An edge stands once, however many words two processes share,
//! and edges ascend by the node that they come from, and then by the node that they lead to.
//!
//! # Terms
//!
//! A *word* is a piece of the state, up to 64 bits that one process writes or none, so a loop is found by what is
//! written and read and not by names of variables: two processes that write and read different bits of one variable do
//! not wait for each other. Words are told in ranges ([`WordRange`]), since a process that reads a memory by an index
//! reads all its words, which may be tens of thousands. `specs/Reading.antt` says of ranges that they *meet* where
//! some word stands in both, and of two processes that one *feeds* the other where a range that it writes meets one
//! that the other reads. The edges are a list over all pairs of processes, in order.
//!
//! # How it is found
//!
//! Each word has at most one writer. A table tells it for each word, and where the run of words with that writer
//! ends. A range is then read in as many steps as it has such runs: a memory with one writer takes one step,
//! however long it is. Readers go in order, and each is noted at its writers, so that the lists of each
//! writer ascend by themselves and a reader that is noted already stands last.
//!
//! # What is proved
//!
//! The graph has the costs that were handed in and exactly the edges of the definition, in its order, and the answer
//! 'too many' comes exactly past the limit. That no two processes write a common word is required: [`has_one_writer`]
//! tells it, and whoever cut the words knows it. Left open is want of memory.
//!
//! # Cost
//!
//! Time is linear in the words that are written, and in the runs of writers in the ranges that are read. Space is two
//! numbers for each word up to the last that is written, and the edges. Past 65,536 edges it stops.
//!
//! ```text
//! process 0 writes words 1..3             edges 0-1, 0-2, 1-2
//! process 1 reads 2..3 and writes 3..4
//! process 2 reads 1..9
//! ```
#![tactic(auto)]

mod apart;
mod fault;
mod graph;
mod noted;
mod ranges;
mod writers;

pub use apart::has_one_writer;
pub use fault::GraphFault;
pub use graph::graph_of;
pub use ranges::{Touched, WordRange};
