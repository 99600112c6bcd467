//! Which imports the processes of a flat design call.
//!
//! A design may declare imports that nothing calls; nothing is asked of the host for those. [`called_imports`] marks
//! those that some process calls, wherever the call stands: in an expression, an argument, an index of either side, a
//! test or a label, or as a statement, also in a branch that is never taken.
//!
//! `specs/Calls.antt` lists the calls that stand in a process by one fold over its trees, one line a form, and says when
//! an import is called.
//!
//! # What is proved
//!
//! [`called_imports`] has one mark for each import of the design, which holds exactly where some process calls it.
//!
//! # Cost
//!
//! One walk over the design, and for each import one over the list of calls.
//!
//! ```text
//! assign y = f(g(x));  always_ff @(posedge clk) h();      imports e, f, g, h
//! calls: g f h                                            marks: no yes yes yes
//! ```
#![tactic(auto)]

mod called;
mod expr;
mod stmt;

pub use called::called_imports;
