//! What a compiled model is, and what running it means, on words and codes alone.
//!
//! # What stands in it
//!
//! A [`Built`] is all that a run stands on: the flat design, the words of its state, a code for each process and a commit for each
//! clocked one, a plan for each of the two parts of an eval, and of each import its number at the host and whether it is deemed
//! safe to be called from several threads. Its type keeps that there are as many codes as processes and commits, that a code
//! names only words and imports that are there, and that each node of both plans has a code. Of the design it keeps that each bit
//! has one writer at most and that no process writes an input port of the top (`specs/Drivers.antt`), that the words are those that
//! the design is cut into (`specs/Cuts.antt`), that settling does not stall, and that the nodes of each part stand in serial order
//! (`specs/Settle.antt`). And the code of each node touches only what the node may: it loads and stores words with a bit that its
//! process reads or writes, and shadows where the process is clocked, and a commit calls nothing (`specs/Touches.antt`; that its runs
//! do so is a law in `specs/TouchLaws.antt`).
//!
//! A [`ValidPlan`] tells how the nodes of a part run: its nodes in serial order, the graph of which waits for which, the nodes
//! grouped into tasks, and the tasks on threads. `specs/Plans.antt` says what a valid plan is, in the words of groups that
//! `plan_graph` has, and its type keeps it.
//! [`ValidPlan::one_task`] makes the plan of one thread.
//!
//! A [`Runner`] runs a model, eval by eval. A reader sees its words, and the calls of the last eval that are kept, which are
//! those of imports that are not deemed safe.
//!
//! # What a run means
//!
//! `specs/Machine.antt` has one function for an eval, `evaluated`, over a host's functions:
//!
//! 1. *The inputs are put.* Each word with bits of an input port gets them.
//! 2. *The combinational processes settle.* The nodes of the settle part run once, in serial order. A node's run is the course of
//!    its code on the words and the host.
//! 3. *Events.* A round begins with a test. A clocked process fires where one of its variables went from 0 to 1, or from 1 to 0,
//!    from the words at the test before to those of now (IEEE 1800-2017 9.4.2, at two states). The test before the first round is
//!    the last one of the eval before; before the first eval all words count as 0. Where nothing fires, the eval ends.
//! 4. *Where one fired*, the bodies of those that fired run, which keep their nonblocking writes in shadows, then their
//!    commits copy the shadows (10.4.2), and then the combinational processes settle again. The nodes of the clocked part
//!    stand in this order. Then the next round begins, so that an event may name a variable that a process writes.
//!
//! The clocked part runs at most [`MOST_RUNS`] times in one eval. Where the test after that still finds something that fires, the eval has
//! not converged, and nothing more runs.
//!
//! A variable's value is put together from the words that hold its bits; shadows, and word 0 of the table, hold none.
//!
//! # Terms
//!
//! - a *part*: settle or clocked; a *node*: a combinational process, a body or a commit;
//! - the *code number* of a node: its process's, or behind all processes the number of its commit;
//! - the *opening*: the state before the first eval, with the variables' first values;
//! - the *room*: the greatest number of calls that an eval can keep, which is known from the codes (`specs/Room.antt`).
//!
//! # What is proved
//!
//! That [`ValidPlan::one_task`] makes a valid plan with these nodes and this graph, and exactly the group, the task, the list and
//! the order of `specs/OneTask.antt`. The trait's clauses are what each runner has to show: an eval is `evaluated`, and answers whether it converged. That no eval keeps more calls than the room is a
//! law of the definitions (`specs/RoomLaws.antt`), so a runner takes all memory when it is opened.
//!
//! # Cost
//!
//! [`ValidPlan::one_task`] is linear in the nodes. Nothing else here computes.
//!
//! ```text
//! always_ff @(posedge clk) q <= q + 1;     words: 0 table, 1 clk, 2 q, 3 shadow of q
//! codes:   0  word 3 = word 2 + 1          the body
//!          1  word 2 = word 3              its commit
//! settle:  no node                         clocked: Body(0), Commit(0)
//! inputs clk = 1, 1, 0, 1                  q = 1, 1, 1, 2
//! ```
#![tactic(auto)]

mod built;
mod input;
mod one_task;
mod plan;
mod run;
mod runner;

pub use built::Built;
pub use input::InputWord;
pub use plan::ValidPlan;
pub use plan_graph::Task;
pub use run::{MOST_RUNS, RunFault, RunNow};
pub use runner::Runner;
