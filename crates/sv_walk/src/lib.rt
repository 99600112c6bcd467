//! The one walk over expressions and over what is assigned: which names are read, written and called, where a constant
//! is needed, and how many terms there are.
//!
//! In come a part of the syntax tree, the table of names, and a [`Visit`], which is told what the walk meets, in token
//! order. Out comes nothing but what the visitor has kept.
//!
//! Each walk ensures that its visitor was told exactly the events of the part, each once and in token order: `specs/Events.antt`
//! has the list for what is read and `specs/Targets.antt` that for what is written. What one event does to a visitor is
//! its ghost member `told`.
//!
//! # Where a constant is needed
//!
//! The caller says whether the whole has to be constant. Within it these have to be: the count of a replication
//! (IEEE 1800-2017 11.4.12.1), both ends of a part select `[m:l]`, the width
//! of an indexed one, `[e +: c]` and `[e -: c]` (11.5.1), and in this subset the argument of `$clog2` (20.8.1). What stands in such a place is told with `constant` set,
//! also what stands deeper in it.
//!
//! # Terms
//!
//! A *term* is what costs in an expression: each primary (a parenthesis, a brace, a call and a system call count once
//! besides what they hold, and a size with its digits once), each operator, each `?` and each select. The inner brace
//! of a replication is no primary, and the name and the brace of what is assigned are none either.
//!
//! # Names that are written
//!
//! What is connected to an output port stands as an expression in the tree. Where it is made of names with selects, and
//! braces of such, it may be written ([`is_target`]), and [`visit_target`] goes over it as [`visit_lvalue`] over what is
//! assigned.
//!
//! # Cost
//!
//! Linear in the tokens, with a stack as deep as the tree, and no memory.
//!
//! ```text
//! visit_expr    y + {2{m[i]}}    term, name y, term, term, term (2), term, name m with one select, term, term, name i
//! visit_lvalue  {a, b[i]}        target a, target b with one select, term, term, name i
//! ```
#![tactic(auto)]

mod expression;
mod first;
mod target;
mod visit;

pub use expression::{visit_args, visit_expr, visit_selects};
pub use first::first_token;
pub use target::{is_target, visit_lvalue, visit_target};
pub use visit::Visit;
