//! Copies of compiled models.
//!
//! # What comes in, what goes out
//!
//! [`copy_built`] takes a compiled model (`plan_types::Built`) and gives another with memory of its own: the same flat design, the
//! same words, codes and plans, and of each import the same number and the same mark of whether it is deemed safe. The model
//! stays as it was. A copy is for a second run that is to outlive the first, or to run beside it.
//!
//! # Terms
//!
//! - *Equal*: contracts see a list as its items, a box as what it holds and a text as its bytes, so trees that stand in different
//!   memory are one value where they hold the same. The words of a layout stand in a plain `Vec`, whose value has its block of
//!   memory in it: there the items are equal, and the layouts are not.
//! - A model *runs as* another where on every host and from every state the opening, each eval, whether it converges, and the values
//!   that a reader sees are the other's, and the room of the calls that an eval can keep (`specs/Copies.antt`).
//!
//! # How it is copied
//!
//! One small function a type walks the trees of the design: expressions, then statements, then variables, memories, processes,
//! imports and scopes. What is plain data is copied as a whole. What holds lists is copied by [`copies`](copied::copies), which
//! asks each item for its copy.
//!
//! Types that keep facts of their parts, as a design whose numbers all name something, are put together from equal parts, so the
//! facts hold again and nothing is tested a second time.
//!
//! # What is proved
//!
//! At Ok each part of the copy is equal to the model's, the words of the layout by their items, and the copy runs as the model does.
//! Only want of memory is an error.
//!
//! # Cost
//!
//! Time and memory linear in the model, with a stack as deep as its trees.
//!
//! ```text
//! let second = copy_built(alloc, &built)?;
//! let one = PlainRunner::open(alloc, &built, host)?;
//! let two = PlainRunner::open(alloc, &second, other)?;   // with equal hosts the same words after each eval
//! ```
#![tactic(auto)]

mod built;
mod copied;
mod design;
mod expr;
mod plan;
mod stmt;

pub use built::copy_built;
