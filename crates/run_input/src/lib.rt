//! The files that a command names: their bytes, or the first that is not read, and why.
//!
//! A file has at most 4,194,304 bytes. A longer one is told apart from one that cannot be read, since its command is
//! refused and not at fault. `specs/Input.antt` says what is read of a list of files; `specs/InputLaws.antt` has its laws,
//! for one file and for the next.
//!
//! Cost: linear in the bytes of the files.
//!
//! ```text
//! read_files(alloc, world, names)     // Ok(bytes of each), or Err(Stop { at: 1, fault: World }): the second was not read
//! ```
#![tactic(auto)]

mod files;

pub use files::{Stop, read_files};
