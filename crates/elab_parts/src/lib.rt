//! What elaboration does of one thing of a design: an instance's head and its connections, an item, a statement. Which
//! things a design has, and in which scopes, is the upper crate's, `sv_elab`.
//!
//! # The calls
//!
//! Each takes the [`Present`] scope, which says what names denote and what is laid down so far, and gives what the
//! thing means, or a [`Stop`]: the first fault of its parts from left to right, then its own. What a thing lays down is
//! counted against the limits before its faults are looked at.
//!
//! - A *head* is what stands before a module's items: [`head_of`] visits the parameter list and the ports of an
//!   instance, with what it gives to them (IEEE 1800-2017 23.10), and [`join_ports`] connects the ports in their order,
//!   each a process of the scope that holds the instance (23.3.3).
//! - An *item* that makes no scope is a method of [`Present`]: variables, parameters, assignments, processes. Statements
//!   are walked turn by turn of their loops, whose variable is a constant in each turn.
//! - The variable of an *event* has one bit, and may be any variable that is in scope: an input, or one that the design
//!   itself makes (9.4.2).
//! - The names that a scope declares, wherever in it, are those that no block without a name may have (27.6):
//!   [`declare_module`], [`declare_body`]. Paths are [`root`], [`inner`] and the segments of blocks.
//!
//! # What is proved
//!
//! All calls are safe and end. What becomes of each count and each limit's fault stand in `specs/Counting.antt`, the bytes
//! of paths in `Paths.antt`, and what a connection of an instance gives in `Actuals.antt`. That a thing's first fault is
//! found, and that all that it lays down is counted, is not proved.
//!
//! # Cost
//!
//! Linear in what is laid down: a name is looked up in constant time, and a turn of a loop costs what its statements do.
//! The stack is as deep as the statements and expressions of the tree.
//!
//! ```text
//! always_comb for (int i = 0; i < 3; i++) y[i] = a[i];     one process; a term of the loop, and three times one of the
//!                                                          assignment with those in it
//! module c #(parameter W = 8) (input [W-1:0] a);
//! c #(.W(4)) u(.a(x));                                     W is 4, a has 4 bits, and x is connected to it by one process
//! ```
#![tactic(auto)]

mod connect;
mod counts;
mod declared;
mod given;
mod head;
mod path;
mod plain;
mod present;
mod statements;
mod stop;

pub use connect::join_ports;
pub use counts::Counts;
pub use declared::{declare_body, declare_module};
pub use given::{Given, List, Places, list_of};
pub use head::{Head, HeadPort, Outer, constant_of, head_of, is_parameter};
pub use path::{inner, numbered_segment, root, turn_segment};
pub use plain::import_denoted;
pub use present::Present;
pub use stop::{Counted, Stop};
