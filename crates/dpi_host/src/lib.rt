//! The host: what a design calls through its imported functions (IEEE 1800-2017 35.5).
//!
//! A [`Host`] is a machine. Contracts see it as plain numbers, its state and a part that never
//! changes, and as functions of its type: which number an import has by its name, what a call
//! answers, and what state it leaves. So a definition of a run speaks of numbers and these
//! functions alone, and holds for every host. An import is *by arguments alone* where its answer
//! ignores the state and its call keeps it. Which imports are so is told by the host, and it is a
//! law of the trait that the host tells it truly, both ways.
//!
//! Arguments are a list of numbers. A missing one is read as 0 ([`argument`]) and a further one is
//! ignored, so that a host never refuses a call. The answer is a number of 64 bits; the caller cuts
//! it to the width of the declared result.
//!
//! Several threads may ask for the answers of imports by arguments alone: [`Host::share`] makes an
//! object for them, which [`Answers`] describes. Which imports are called so is the reader's choice
//! of a [`Mode`], by [`deemed`].
//!
//! A call is kept as a [`CallRec`], and a [`CallBuf`] keeps as many as it was made for. Contracts
//! see a record as the import, the list of its arguments and the reply, and a buffer as the list of
//! its calls and its room.
//!
//! Making a buffer and sharing a host are the only calls that take memory. Each call here takes a
//! fixed number of steps, but for those of a host, which are its own.
//!
//! ```text
//! let mut calls = CallBuf::with_room(alloc, 2)?;       // calls: none, room 2
//! let reply = host.call(id, &[5]);                     // the answer, and the state after it
//! calls.push(CallRec::new(0, &[5], reply));            // calls: import 0 of (5) = reply
//! calls.clear();                                       // calls: none, room 2
//! ```
#![tactic(auto)]

mod calls;
mod fault;
mod host;
mod mode;
#[cfg(test)]
mod tests;

pub use calls::{CallBuf, CallRec, argument};
pub use fault::NoMemory;
pub use host::{Answers, Host};
pub use mode::{Mode, deemed};
