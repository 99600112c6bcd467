//! Tests of the whole command over files that stand in memory.
//!
//! A case is a command, the texts of its files and which call of the world fails; beside it stand the status, the text of
//! each stream, the created files and the two counts of faults. All expected texts are worked out by hand from the
//! documents (docs/FORMATS.md, docs/LANGUAGE.md).
//!
//! - `rows`: designs that run, one for each rule that a reader may get wrong.
//! - `refusals`: a line for each stage of the order of refusals.
//! - `faults`: one command with a call log and a waveform, of which each read, creation and write fails once; and a run
//!   that stops at an eval that does not converge.
//!
//! Want of memory is no case: its answer is free, and with ample memory none of these ends by it.
#![tactic(auto)]

#[cfg(test)]
mod case;
#[cfg(test)]
mod faults;
#[cfg(test)]
mod refusals;
#[cfg(test)]
mod rows;
