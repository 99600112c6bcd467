//! The runner on one thread.
//!
//! # What comes in, what goes out
//!
//! [`PlainRunner::open`] takes a model (`plan_types::Built`) and a host. It is a `plan_types::Runner`: `eval` takes the values of the
//! input ports, and `word` and `calls` tell the words and the kept calls after it.
//!
//! # Terms
//!
//! - The *tables* of a model are made once (`run_tables`): the words of inputs and of events, the widths of results, the codes of
//!   nodes. An eval looks nothing up by search.
//! - What a run *changes* is the host, the words and the kept calls. A call is kept where its import is not deemed safe.
//! - A *turn* makes one load, store or call of a code, and hands the answer to the frame (`task_eval::Frame`).
//!
//! # How an eval goes
//!
//! The inputs are put into their words, and no call is kept yet. The nodes of the settle part run in serial order. Then come rounds. Each
//! takes the events between the words at the test before and those of now (IEEE 1800-2017 9.4.2), and notes the words for the
//! next test. Where a process fired, the nodes of the clocked part run: the bodies and the commits of what fired, and the
//! combinational processes again. The eval ends where nothing fires, and is given up as not converged where the clocked part ran
//! as often as it may.
//!
//! Frames are asked and given, and not run on a `task_eval::Bus`, since only the calls that are asked for are kept.
//!
//! # What is proved
//!
//! At Ok, `open` gives a runner of exactly that model, at the opening on that host. `eval` leaves the machine as `evaluated` of
//! `plan_types` says, with the host's own functions, and answers Ok exactly where it `converges`; the model stays the same.
//! `specs/Seen.antt` is the same run on what one thread keeps, and `proofs/Evals.antt` shows that the two agree, where the definition
//! tells all stores and calls and the runner keeps none but the calls that are asked for. Since no run loses a call
//! (`proofs/Grows.antt`), each call has its place: at the end there are no more than the room of the definition.
//!
//! The functions here take a `Callee`, which is a host without the bounds that threads need: the method of an `impl` cannot
//! hand those on.
//!
//! # Cost
//!
//! An eval takes the ops that it runs, a step for each input word, and in each round a step for each event and a copy of the words. It
//! takes no memory: `open` takes the words twice, a frame and the place of all calls that an eval can keep.
//!
//! ```text
//! let mut runner = PlainRunner::open(alloc, &built, host)?;  // q = 5
//! runner.eval(&[Bits::new(1, 1)])?;                          // clk rises: q = 6
//! runner.eval(&[Bits::new(1, 1)])?;                          // no edge: q = 6
//! runner.word(4)                                             // 6
//! ```
#![tactic(auto)]

mod call;
mod callee;
mod edges;
mod eval;
mod live;
mod nodes;
mod open;
mod put;
mod runner;
mod tables;
mod turn;

pub use runner::PlainRunner;
