//! Reads tokens as statements, by recursive descent (IEEE 1800-2017 A.6.2 to A.6.8).
//!
//! In come a [`Source`](parse_expr::Source) of tokens, a place in it and a depth; out comes the
//! statement that begins there, with the place moved to its end, or the fault. `parse_expr` says
//! what places, depths and faults are, and reads the expressions, types and targets.
//!
//! ```text
//! if (a) x = 1; else if (b) f(x); else begin end
//!   is   IfElse [ if (a) x = 1; else, if (b) f(x); else ], begin end
//! ```
//!
//! # How it decides
//!
//! The first token tells which statement it is. One that begins with a name is a call where `(`
//! follows the name, and else an assignment. An `else` is taken wherever it may stand, so it
//! belongs to the nearest `if`. The tests of one chain of `else if` stand beside one another: they
//! are read by a loop and not by recursion, and count once for depth.
//!
//! A statement counts for depth, and `inside` is asked at its first token, once that token may
//! begin one. `begin` with its `end`, a `case` and a loop are statements and add nothing to that.
//!
//! # What is proved
//!
//! `ParsedBody` (`specs/Body.antt`) says of the tokens between two places that they read as a
//! statement; that it is an `if` exactly where it begins with that word; and that no `else`
//! follows that an `if` at its end could take. The last two are what a chain needs of its parts.
//! It speaks of items and blocks of items as well, as the grammar has chains of `if` for both.
//! `specs/BodyLaws.antt` has one rule for each form that statements and items share, and
//! `proofs/Rules.antt` one for each form of a statement: from its parts to the whole.
//!
//! # Cost
//!
//! Each token is looked at a fixed number of times, and the boxes and lists of the tree are the
//! only memory. The recursion goes as deep as the tree counts for depth, so at most 128 statements
//! stand on the stack.
#![tactic(auto)]

mod cases;
mod chain;
mod class;
mod edges;
mod heads;
mod simple;
mod stmts;

pub use edges::{NamedWord, named_word};
pub use heads::{item_loop, stmt_loop, test};
pub use stmts::stmt;
