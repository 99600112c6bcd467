//! The scopes of a design: its instances and the blocks of its generate constructs, with the values of their constants
//! (IEEE 1800-2017 3.10, 23.3, 23.10, 27).
//!
//! # The call
//!
//! In come the syntax tree, the table of names, and perhaps the name of the top module; out come the [`Scopes`], or the
//! first fault. [`elaborate`] lets `sv_names` look at the whole text first. Then it walks the design from the top down,
//! in token order: a module's parameter list, its ports and its items. A `for` has its block once for each turn, an `if`
//! the block that is taken, and an instance the items of its module.
//!
//! # The walk
//!
//! - At an *instance* the walk looks at all overrides, visits the parameter list and the ports of the module, connects the
//!   ports in their order, and goes through the items. An override is a value of the scope that holds the instance,
//!   with the parameter as its left side.
//! - A *block* is named by its label, or `genblkN` where its construct is the N-th `for` or `if` of the scope, with as few
//!   zeros before N as make it differ from every name that the source declares in that scope (27.6). A turn adds `[i]`.
//!   A branch that is itself one `if` without `begin` is no block (27.5).
//! - A *process* is a continuous assignment, an always block or a connection. What is laid down is counted against the
//!   limits, turn by turn: instances, processes, the terms and the calls of processes, and the turns of all loops. A
//!   thing is counted before its own faults are looked at.
//!
//! Of the parts of a thing the walk finds the first fault, from left to right, then that of the thing. What it does of
//! one thing, without the scopes that are left to be walked, is `elab_parts`; types, values and turns are those of
//! `sv_expr` and `elab_types`.
//!
//! # What is proved
//!
//! At `Ok` there is a first scope, which is the top: it stands in no other, and its module is the one that `sv_names` finds. Each
//! other scope stands in one before it. A fault is one of `sv_names`, of which the same holds as there, or one that the
//! walk tells, and that comes only where there is a top and no import is bad (`specs/Faults.antt`). All calls are safe and
//! end. That the scopes are all scopes of the design and in their order, and that a fault of the walk is the first, is not
//! proved.
//!
//! # Cost
//!
//! Linear in what is laid down: each name and each module is looked up in constant time, and a turn costs what its block
//! does. What is left to be walked is kept in a list, so that instances may nest as deep as there are modules; the stack
//! is as deep as the statements and expressions of the tree. Two cases cost more: a block without a name tries as many names as
//! the source declares in its way, and the parameters among a module's items are evaluated twice where the instance has
//! overrides.
//!
//! ```text
//! module top(output [1:0] y); for (genvar i = 0; i < 2; i++) assign y[i] = 1; endmodule
//!     top, top.genblk1[0] with i = 0, top.genblk1[1] with i = 1
//! module top; if (1) if (1) begin : g end endmodule
//!     top, top.g
//! ```
#![tactic(auto)]

mod design;
mod fault;
mod generate;
mod instance;
mod items;
mod scope;
mod scopes;
mod walk;

pub use design::elaborate;
pub use scope::Scope;
pub use scopes::Scopes;
