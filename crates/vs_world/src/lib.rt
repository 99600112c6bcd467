//! The outside as the simulator sees it: files to read by name, four streams to write, and two counts of what failed.
//!
//! A program is written over the trait `World` and never over files or pipes. The trait says what each call does to five
//! meanings: the files, the bytes written to each stream, the list of created files, and two numbers that never fall.
//! `faults` counts the calls that failed, and `absent` the reads that failed since there was no such file. A world that
//! cannot know its files (a real one) tells the two numbers alone, and each fact on the others then says nothing.
//!
//! | Part | What it is |
//! |---|---|
//! | `World` | the trait: `read` at a place of a file, `create` a stream's file, `write` to a stream; each call may move a part |
//! | `read_all`, `write_all` | a file whole within a limit, and all bytes of a text, over any world |
//! | `MemWorld` | a world in memory for tests, pinned to the byte, that fails where it is planned |
//! | `RealWorld` | the trusted edge: real files and streams, of which nothing is told but the counts |
//!
//! `Out` and `Errors` are always open. `Calls` and `Vcd` are open once they were created, each at most once.
//!
//! Cost: `read_all` reads 65,536 bytes at a time and takes memory for the file, doubled as it grows. `write_all` takes no
//! memory, and neither does a call of `MemWorld` but `new`.
//!
//! ```text
//! let text = read_all(alloc, world, b"adder.sv", 4_194_304)?;   // the file, or why not
//! write_all(world, Stream::Out, b"eval 1\n")                    // Err(n): only the first n bytes went out
//! ```
#![tactic(auto)]

mod memory;
mod real;
#[cfg(test)]
mod tests;
mod whole;
mod world;

pub use memory::{MemFile, MemWorld, Op, Planned};
pub use real::RealWorld;
pub use whole::{ReadFault, read_all, write_all};
pub use world::{Fault, Stream, World};
