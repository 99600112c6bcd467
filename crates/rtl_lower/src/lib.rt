//! Expressions and statements of the tree as those of the flat design.
//!
//! # What comes in, what goes out
//!
//! In come a part of the syntax tree and what names denote where it stands: a [`Here`] for expressions and what is
//! assigned, an [`Inside`], whose scopes are entered and left, for statements. The numbers of variables, memories and
//! imports in it are those of the design. Out comes the same as a part of the design (`rtl_ir`): [`lower`],
//! [`place_of`], [`connected_place`], [`statement`].
//!
//! # The rules
//!
//! An expression is lowered in a context, a width and a sign ([`Kind`]), which go down to every operand that is not
//! taken alone (IEEE 1800-2017 11.6.1, 11.8.2). Taken alone are the right operand of a shift, tests, the operands of
//! `&&`, `||`, `!` and reductions, the parts of concatenations, and indices. Compared operands are taken at the wider of
//! both; arguments as they are assigned to their formals (35.5.4). Numbers, parameters, genvars, loop variables and
//! `$clog2` become constants of the context.
//!
//! A select that parameters and genvars alone make has a constant as its index and counts its own bits as read or
//! written; any other select, also that of a loop variable, counts the whole variable or memory.
//!
//! In statements loops are unrolled (12.7.1), blocks dissolve, a chain of `else if` is one list, and a `case` is taken at
//! the widest type of its subject and its labels, signed where all are (12.5). An assignment's value is taken at the
//! wider of both sides (10.7).
//!
//! # Where it answers without a part of a design
//!
//! [`FlatFault::NoMemory`] where there was none left, and [`FlatFault::NotElaborated`] where what comes in is no part of
//! an accepted design: an expression has a fault, a mark is no operator, the operators of one level are of two classes, a name
//! denotes nothing that its place can use, a width is none, or a loop has more turns than there may be. No value is made up
//! in their stead.
//!
//! # What is proved
//!
//! Every call is safe and ends, and every width is from 1 to the greatest one. Types are those of `sv_expr` and contexts
//! those of `vs_base`: [`lower`] gives an expression of the width and the sign of its context, [`assigned_value`] one of the
//! context of its assignment. A name that is a constant becomes its value in the context ([`named`]), and a target is a part of
//! the variable or the memory that its name denotes ([`target`]). [`enter_block`] enters the scope of a turn exactly where the
//! loop's condition holds there, and [`statement`] leaves the scopes as they were (`specs/Kinds.antt`). That what comes out means what comes in
//! is not proved.
//!
//! # Cost
//!
//! The type of an operand that is taken alone is found by a walk over it, so an expression costs its size times the depth
//! of such operands one in another. A loop costs its body for each turn. The stack is as deep as the tree.
//!
//! ```text
//! (a + b) >> 1      in 8 bits:  8u(8u(a + b) >> 32s'1)
//! 3 > 2 > 1         in 1 bit:   1u(32s'3 > 32s'2 > 32u'1)
//! n = n + a[i]      turn i = 0: n = 4u(n + a[32s'0 +: 1]), and all of a counts as read
//! ```
#![tactic(auto)]

mod body;
mod expression;
mod fault;
mod fixed;
mod formal;
mod here;
mod inside;
mod kind;
mod number;
mod operator;
mod place;
mod turn;

pub use body::statement;
pub use expression::{lower, named, target};
pub use fault::FlatFault;
pub use here::Here;
pub use inside::Inside;
pub use kind::{Kind, assigned, kind_of, kind_of_import, kind_of_name, of_declared};
pub use place::{assigned_value, connected_place, place_of, target_kind, variable, whole_variable};
pub use turn::{enter_block, first_value};
