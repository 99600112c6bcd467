//! What expressions mean: the width and sign of a result, the first fault, and the value of a constant expression.
//! The types and contexts themselves are those of `vs_base`.
//!
//! # Types and contexts
//!
//! A type is a width in bits and whether it is read with a sign. An expression has a type of its own, which its
//! operands fix from below (IEEE 1800-2017 11.6.1, table 11-21, and 11.8.1). It is then evaluated in a *context*:
//! a width and a sign that go down again to every operand that is not *taken alone*, and each operand is extended
//! to it, by its sign bit only where the whole is signed (11.8.2). So `(a + b) >> 1` on two operands of 8 bits
//! that is assigned to 8 bits loses the carry, and `({1'b0, a} + b) >> 1` keeps it. Taken alone are shift counts,
//! tests, logical operands, the parts and the count of a concatenation, and what is inside a select; the operands
//! of a comparison are taken at the wider of both. Operators of one level group from the left, `?:` from the right.
//!
//! # Calls
//!
//! In come an expression of the syntax tree and a [`ScopeView`], which says what names denote where it stands. Out
//! comes its type ([`expr_type`]), or its value in a context ([`const_value`]), or its first fault: operands from left to right, each
//! whole, then the thing that holds them, and of one thing a bad range before a width. Every part is looked at, also
//! one that is not evaluated. The calls are total: they ask nothing of the tree, so what stands in no tree that a
//! source reads as, and what the lexical checks refuse, has some meaning too. A name that is no constant counts as 0
//! in [`const_value`], and a name that denotes nothing is one bit.
//!
//! `specs/Meaning.antt` has the definitions: one fold over the expression gives a record of its type, its fault and
//! its value as a function of the context, by one layer a form, over an *environment* that says what names denote
//! (`Environment.antt`). The operators stand in `Operator.antt`, numbers in `Literal.antt`, limits and the order of
//! faults in `Bound.antt`; `MeaningLaws.antt` has the equations, one a form. `Walk.antt` has what the code's loops keep.
//!
//! # Cost
//!
//! No call takes memory. A walk over types goes over the expression once. A walk over values asks for the type of an
//! operand only where that is taken alone, so its time is at most the size times the depth of operands that stand alone
//! one in another. The exception: a replication in the count of a replication is evaluated at least twice for each such
//! level, unless it is the whole count, with or without parentheses round it.
//! The stack is as deep as the tree: no operator, prefix or `?:` of a list adds to it.
//!
//! ```text
//! expr_type   -7 / 2          32 bits, signed
//! const_value -7 / 2          in 32 bits, signed: 32'hfffffffd
//! const_value 4'hf + 4'h1     in 4 bits: 4'h0, in 8 bits: 8'h10
//! expr_type   {0{8'hff}}      bad range, at the brace
//! ```
#![tactic(auto)]

mod bound;
mod combine;
mod expression;
mod fault;
mod literal;
mod lookup;
mod operator;
mod prefix;
mod scope;
mod spelled;
mod target;
mod typed;
mod walk;

pub use expression::{const_value, expr_type, lvalue_type, own_value};
pub use fault::WalkFault;
pub use scope::{Constant, Declared, Denoted, Fixed, ScopeView};
pub use spelled::symbol;
