//! Reads tokens as the parameter list and the ports of a module and as the items in which no item
//! stands, by recursive descent (IEEE 1800-2017 A.1.3, A.1.4, A.2, A.4.1.1, A.6.1, A.6.2).
//!
//! In come a [`Source`](parse_expr::Source) of tokens, a place in it and a depth; out comes the
//! item or list that begins there, with the place moved to its end, or the fault. `parse_expr` says what
//! places, depths and faults are, and reads the expressions, types and targets; `parse_stmt` reads
//! the statements of processes.
//!
//! ```text
//! assign y = a, z = b;              Assigns, 2 assignments
//! fifo #(.DEPTH(4)) q (.clk(c));    Instance of fifo, 1 override, 1 connection
//! always @(posedge clk) n <= d;     Clocked, 1 event
//! ```
//!
//! # How it decides
//!
//! The first token tells which item it is, and one token more wherever that is not enough:
//!
//! - an item that begins with a name is an instance;
//! - after `always @` comes `*` or `(`, and after that `*` or an edge;
//! - the first connection of a list tells whether all are by name or in order;
//! - a name after an import's text is its linkage name.
//!
//! A list with commas is read by one function for all kinds of parts (`Part`). Of what stands in
//! an item only an import's argument list adds to the depth, besides statements and expressions.
//!
//! # What is proved
//!
//! Of the tokens between two places `ParsedBody` (of `parse_stmt`) and `Parsed` (of `parse_expr`) say
//! that they read as the item or the list: they are its tokens in order, each is what its place asks, and each is at most 128 deep. A fault
//! names a token or the end. `proofs/Rules.antt` has a rule for each form of an item, from its parts
//! to the whole, and the proof of each function applies one.
//!
//! # Cost
//!
//! Each token is looked at a fixed number of times, and the boxes and lists of the tree are the only
//! memory.
#![tactic(auto)]

mod class;
mod declarations;
mod headers;
mod imports;
mod instances;
mod lists;
mod plain;
mod processes;

pub use headers::{parameter_list, port_list};
pub use imports::import;
pub use plain::plain_item;
