//! Sets of small numbers, one bit for each: the nodes of a graph, or its groups.
//!
//! A [`NodeSet`] is made with room for so many numbers and keeps that room. It tells whether a number is in it, its
//! least member, the next member above a number and the next one below it, takes in all of another set, and can be
//! copied. Members come out in ascending order, whatever the order in which they were put in, which the rules of
//! planning ask for at every tie.
//!
//! # Terms
//!
//! Number n is bit n % 64 of word n / 64 (`specs/Sets.antt`, `is_member`).
//!
//! # What is proved
//!
//! Each call says of every number whether it is a member afterwards, and each search gives the member that is asked
//! for, or nothing where there is none. Left open is want of memory.
//!
//! # Cost
//!
//! A search or a union takes one step for each 64 numbers, all else is constant. Space is one bit for each number.
//!
//! ```text
//! room for 200, put in 5, 70, 130      first: 5      next_after(70): 130      before(70): 5
//! ```
#![tactic(auto)]

mod node_set;
mod search;
#[cfg(test)]
mod tests;

pub use node_set::NodeSet;
