//! From the tree of a source and its scopes to the flat design.
//!
//! # What comes in, what goes out
//!
//! In come the syntax tree of all files, the table of names, and the scopes that elaboration laid down. Out comes the
//! [`Design`](rtl_ir::Design): variables, memories, processes, imports, ports of the top, scopes ([`flatten`]).
//!
//! # The two passes
//!
//! Both passes are the same walk over the scopes in the order of elaboration (`walk.rt`): items in token order, at an
//! instance the whole of it, at a generate loop a block for each turn (IEEE 1800-2017 27.4), at a generate `if` the block that is
//! taken (27.5). Constants are those of the scopes, declared one by one where their declarations stand, so that a
//! name means what it does at its place (23.9). The walk keeps what is left in a list, since instances nest deeper than
//! a stack holds.
//!
//! - The first pass (`variables.rt`) makes the variables and memories of each scope. Laid one after another, the
//!   ports of the top first and then scope by scope, they have their numbers.
//! - The second pass (`processes.rt`) makes the processes: continuous assignments, with those of a `wire` that has
//!   `=` (10.3.1); connections, in the order of the child's ports and before the child's items (23.3.3); `always`
//!   blocks.
//!
//! Expressions and statements are those of `rtl_lower`, whose page has their rules.
//!
//! # Where it answers without a design
//!
//! [`flatten`] says `NoMemory` where there was none left. It says so too where the scopes are not those of the tree: where a
//! constant or a module is missing, an expression has a fault, a name denotes nothing that its place can use, or a
//! number names nothing. None of this comes for an accepted design. Inside the crate the two are kept apart,
//! as the faults of `rtl_lower`, and no place makes up a value in their stead.
//!
//! # What is proved
//!
//! Every call is safe and ends, and what comes out is a `Design`, with all that its type keeps. Its scopes are those that come in;
//! its imports are all those of the source, in token order, each with its types, its linkage name and its place
//! (`specs/Imports.antt`); its ports are those of the first scope's module, port k as variable k, with their directions
//! (`specs/Ports.antt`), and these first variables have the ports' names, widths, signs and lowest indices, by the constants of the
//! first scope, and are 0 at the start (`specs/PortVars.antt`); each variable and each memory stands under the path of its scope, scope by
//! scope (`specs/Laid.antt`); each event is an edge of a variable of one bit (`specs/Edges.antt`). That
//! the processes are those of the source, and the variables and memories all that it declares, is not proved.
//!
//! # Cost
//!
//! Linear in the scopes and the items laid down, besides what `rtl_lower` says of expressions and statements. Each
//! import among items takes a binary search, and the top's module a search among the descriptions. The stack is as deep as the tree.
//!
//! ```text
//! assign y = (a + b) >> 1;                      y = 8u(8u(a + b) >> 32s'1)
//! for (int i = 0; i < 2; i++) n = n + a[i];     n = 4u(n + a[0]); n = 4u(n + a[1]);
//! c u(.i(a), .o(y));                            u.i = a; y = u.o; and then the items of c
//! ```
#![tactic(auto)]

mod connect;
mod design;
mod edges;
mod held;
mod imports;
mod ports;
mod processes;
mod text;
mod variables;
mod walk;

pub use design::flatten;
