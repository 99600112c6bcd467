//! The names of a design: which module is the top, and the first fault that the text alone shows.
//!
//! In come the syntax tree of all files, the table of names, and the name of the top module where one is asked for. Out
//! comes the number of the top module among the tree's descriptions, or the least fault ([`check_names`]).
//!
//! # The terms
//!
//! The *file level* is what stands outside of modules: its imports are seen in every module, also before they stand. A
//! *scope* is a module, a generate block, or a loop among statements (IEEE 1800-2017 23.9). A name is declared from a
//! place on, in token order: a variable from its name on, a parameter, a genvar and a loop variable only after their own
//! values (6.21). A named block among statements declares its name in the scope round it. Without `begin`, the body of a
//! loop is a block all the same, and an `if` that is a branch of an `if` is none (27.5). The *class* of a name is what it
//! is declared as: a variable, an input port, a memory, a parameter, a genvar, an import and so on. Each place of the
//! grammar where a name stands needs certain classes, and some need a constant (11.2.1). Modules have names of their own,
//! apart from all others, and may be used before they stand (3.13).
//!
//! A module is the *top* where no item of any module instantiates it, in branches that are not taken too (23.3.1). A
//! module *reaches* itself where instances lead from it back to it.
//!
//! # The least fault
//!
//! Faults are ordered by their kinds, as [`DesignFault`] lists them, and of a kind by token order, over all modules, also
//! those that nobody instantiates. One walk over the tree in token order keeps the least fault so far. What it must know
//! beforehand are the file level's imports, the modules with their ports and overridable parameters ([`Modules`],
//! [`Members`]), and which modules reach one another: the strongly connected components of the graph of instances, found
//! by two depth-first walks with a stack of their own (Kosaraju; Sharir, 1981), so that a long chain of modules takes no
//! deep recursion.
//!
//! # What is proved
//!
//! Every call is safe and ends. [`check_names`] answers `NoTop` and `ManyTops` exactly where the definitions of
//! `specs/Candidates.antt` have no module or several that may be the top, and else the one that may. It answers
//! `BadImport` only at the first bad import of the source, and a number only where there is none (`specs/Noted.antt`).
//! A number comes only where no `case` has a second `default`; [`find_second_default`] finds the first one of a statement
//! (`specs/Defaults.antt`: of each `case` the words of its arms, in their order, with what stands in the bodies between
//! them). No fault comes that only the layout of a design can have (`specs/Cause.antt`). That the other faults come exactly where the text has them is not proved: examples show it.
//!
//! # Cost
//!
//! Linear in the tokens and the table of names, in time and in memory: each name is looked up by its number, and a port or
//! parameter of a module by a hash. The stack is as deep as the tree.
//!
//! ```text
//! module top; wire y = q; endmodule                     unknown name q, at the q
//! module top; wire y = q; logic a, a; endmodule         duplicate a, at the second a
//! module a; b u(); endmodule  module b; endmodule       0, the number of a
//! ```
#![tactic(auto)]

mod check;
mod checker;
mod class;
mod declarations;
mod defaults;
mod fault;
mod graph;
mod imports;
mod instances;
mod items;
mod least;
mod loops;
mod members;
mod modules;
mod places;
mod seen;
mod spelled;
mod statements;
mod survey;
mod top;

pub use check::check_names;
pub use defaults::find_second_default;
pub use fault::DesignFault;
pub use members::{Direction, Members};
pub use modules::{Modules, module_at};
