//! From a flat design to a model that can run.
//!
//! # What comes in and out
//!
//! [`build`] takes a design, the host that its imports are looked up in, and the mode that tells which imports are
//! deemed safe to call from several threads. It gives a [`Built`](plan_types::Built): the design, the words of its
//! state, a code for each process and each commit, a plan for each of the two parts of a run, and of each import the
//! host's number and whether it is deemed safe. The host is asked, and nothing in it changes.
//!
//! # Refusals
//!
//! They come in one order, and each only where none before it holds:
//!
//! 1. a bit that two processes write (IEEE 1800-2017 9.2.2.2, 10.3.2): the least one, with the first two of them;
//! 2. an import that some process calls and the host does not have, the first by declaration;
//! 3. an import that some process calls and that is deemed safe, where the host does not answer by its arguments alone;
//! 4. too many words; 5. too many nodes of a part; 6. too many edges between the combinational processes;
//! 7. a loop of combinational processes, where each waits for the next and the last for the first.
//!
//! `specs/Answer.antt` says of each fault, one line a kind, what it tells and what holds before it.
//!
//! # Terms
//!
//! A process *feeds* another one where some bit is written by the first and read by the second (`specs/Settle.antt` of `plan_types`). The
//! edges of the graph that is settled are these pairs, so a loop is one by bits, whatever their variables and words
//! are. The code finds them by words: a word is read where a bit of it is, and written where a bit of it is
//! (`specs/Touching.antt`). Both are the same, since the words cover the bits one behind the other and the bits of a word
//! have one writer.
//!
//! # How it goes
//!
//! Each step is a call of a lower crate: `drivers`, `called_imports`, `cut`, `has_too_many_nodes`, `ranges_read` and
//! `ranges_written` with `words_of`, `graph_of`, `ready_order`, `compile`, `part_nodes` and `ValidPlan::one_task`. What
//! stands here is how they are joined, and the names of bits for messages. Each plan has one task, on thread 0, which runs
//! its nodes in serial order; so no node has to wait for another, and the graphs of the plans have costs and no edges.
//!
//! Two things are tested and not shown of the crates that they come from: that no process writes an input port of the top, and that
//! the code of each node touches only what the node may (`specs/Touches.antt` of `plan_types`), op by op. Of a design that elaboration gives
//! both hold; one for which they do not is answered by want of memory, and no model is made of it. The elements that ops reach by an
//! address are listed first and tested once each; where a process names a memory whole, by the first and the last word, since words
//! stand in the order of their bits.
//!
//! # What is proved
//!
//! Each fault comes exactly where it holds and none before it does, and says the bit, the import, the kind or the places that
//! its line in `specs/Answer.antt` says; at want of memory nothing is said. A model has the design that was given, the words of
//! `cut`, the codes of `compile`, and two plans of the nodes in serial order (`specs/Plans.antt`), whose order of settling is that
//! of `specs/Settle.antt`. What the type of a `Built` keeps is proved where it is made: one writer a bit and none of an input, the
//! cut, settling that does not stall, serial order, and codes that touch only what their nodes may.
//!
//! # Cost
//!
//! That of the calls, each linear in what it goes over or n log n, and for the costs of commits the number of clocked processes
//! times that of processes, of which there are few thousands. The test of a code takes its ops times the ranges of bits of its process
//! and the memories that it reaches by an address, of which there are few, and once the elements of each memory that it stores so
//! or does not name whole.
//!
//! ```text
//! assign a = b; assign b = a;               a loop of both processes
//! assign y[0] = a; assign y[0] = 1;         two drivers of top.y[0]
//! assign y[0] = a; assign y[1] = 1;         words: table, a, y[0], y[1]; settle runs 0 and then 1
//! ```
#![tactic(auto)]

mod code;
mod driver;
mod fault;
mod import;
mod model;
mod name;
mod plan;
mod reach;
mod settle;
mod touched;

pub use fault::BuildFault;
pub use model::build;
