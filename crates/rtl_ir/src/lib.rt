//! The flat design: what is left of a source when its instances, generate constructs, parameters and loops are gone.
//!
//! # What stands in it
//!
//! A [`Design`] has six lists. *Variables* and *memories* stand scope by scope in the order in which elaboration met the
//! scopes, and in a scope by declaration, ports first. *Processes* stand in elaboration order: continuous
//! assignments, connections of instances and `always` blocks (IEEE 1800-2017 9.2, 10.3, 23.3.3). *Imports* are functions
//! of the outside (35.5) in the order of their declarations, *ports* those of the top module, and *scopes* the instances
//! and blocks. Everything names everything else by its place in these lists.
//!
//! Expressions have the width and the sign of their contexts: both were pushed down to every operand that is not taken
//! alone (11.6.1, 11.8.2), so no type has to be found again. An [`Expr`] of so many bits is evaluated so:
//!
//! - a constant is as wide already; what is read, the result of an import, a concatenation and the single bit of a
//!   comparison, a logical operator or a reduction are extended to its width, by the sign bit where it is signed;
//! - operators of one [`Class`] stand in one list and group from the left. Of comparisons of one level the first is made
//!   at the type of the first two operands, and each further one at the type of its right side, to which the one bit
//!   before it is extended;
//! - of operators before an operand, those up to the last that takes its operand alone work at the operand's width, and those
//!   before it at the width of the whole.
//!
//! A [`Target`] is a variable or an element of a memory, with at most one select. Its `whole` tells whether all bits of
//! the variable or memory count as read or written by it: a select counts its own bits only where all that stands in
//! its brackets is made of parameters and genvars, and its index is then a constant. Operators, prefixes and chains of `?:`
//! stay lists, so nothing nests deeper than the source does.
//!
//! # What its types keep
//!
//! Every width is from 1 to the greatest one ([`Width`]), and an initial value is as wide as its variable. In a
//! [`Design`] every number names a thing that is there: those of targets, calls, events, ports and scopes; a parent
//! stands before its scopes; a constant is as wide as its expression; a level has one operand more than operators; a
//! memory is read and written by elements and a variable is not; and no call has more than eight arguments.
//! `specs/Within.antt`, `WithinStmt.antt` and `WithinDesign.antt` define this by folds, and
//! [`Design::new`] tests it.
//!
//! A walk over a design takes the expression first and then the [`Tables`], with the clause
//! `expr_fits (counts_of tables.vars.now tables.mems.now tables.imports.now) expr.now ≡ true`, or that of
//! `stmt_fits` or `target_fits`. With `using(rtl_ir::specs::WithinLaws::laws)`, or
//! `WithinStmtLaws`, indexing a list by a number of the design needs nothing more, and a call of the walk itself the
//! answer `(search (rules, the_lemmas), grind (arith, laws))`. The tests of this crate have such a walk.
//!
//! # Cost
//!
//! [`Design::new`] is linear in the design, with a stack as deep as its trees. Nothing else here takes more than a few steps.
//!
//! ```text
//! assign y = (a + b) >> 1;     8 bits: the level [a + b, 1] with >>, a and b at 8 bits, 1 alone at 32
//! assign z[3:0] = a < c;       target z, select at 0 of 4 bits; a level of two operands at the wider of both
//! ```
#![tactic(auto)]

mod counts;
mod design;
mod expr;
mod operator;
mod stmt;
mod whole;
mod whole_fits;
mod width;
mod within;
mod within_stmt;

pub use counts::Counts;
pub use design::{Event, FlatScope, Import, Mem, Port, Proc, ProcKind, Var};
pub use expr::{Call, Choice, Expr, ExprNode, Select, Target};
pub use operator::{BinaryOp, Class, UnaryOp};
pub use stmt::{Arm, Branch, Place, Stmt};
pub use whole::{Design, Tables};
pub use width::Width;
