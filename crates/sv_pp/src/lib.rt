//! The preprocessor: the tokens that are active in a list of files, or the first fault.
//!
//! In come the tokens of each file, in the order of the files, and the table of names that they
//! share; out comes one list of tokens, by IEEE 1800-2017 clause 22. The words:
//!
//! - A *directive* is one of fourteen names after a backquote; any other name there is the *use* of
//!   a macro. The *text* of a macro is the tokens that begin on the line of its `` `define `` after
//!   the name; macros have no arguments.
//! - A token is *active* where each open `` `ifdef `` or `` `ifndef `` has the branch taken in which
//!   it stands.
//! - A token is *read* when it is taken from a file or from a macro's text. Those that are skipped
//!   are read too; those that are only looked at, to see that no name follows, are not.
//! - A *reading* is the active tokens, how many tokens are read, and the first fault, if there is one.
//!
//! The macros that are defined go on from file to file; a branch closes in its file. The tokens
//! of a macro's text get the place of the use that stands in the file, and so do the faults in them.
//!
//! `specs/Reading.antt` says what the use of a macro gives, `specs/Active.antt` what a token of a
//! file does in the state that those before it left, and `specs/Answer.antt` what is answered. Four
//! calls that do nothing say laws of these by their clauses: files have an answer
//! ([`tokens_or_fault`]) and only one ([`one_answer`]), files without directives are left as they
//! are ([`plain_files`]), and of a conditional one branch is active ([`conditional`]).
//!
//! How the code's values show those of the definitions stands in `specs/Shown.antt` and
//! `specs/Table.antt`; no caller needs it. `specs/NamedLaws.antt` has laws for callers whose table of
//! names grows between files.
//!
//! The time is in proportion to the tokens read, of which there are at most 1,000,000. Each macro's
//! text is kept once; besides it, a slot for each name and the list of active tokens are the memory.
//! Uses nest at most 64 deep, and so does the code's recursion; branches nest on the heap.
//!
//! ```text
//! `define W 4                   ->   (no token)
//! `ifdef NOPE                   ->   (no token)
//! logic a;                      ->   (no token)
//! `else
//! logic [`W-1:0] y;             ->   logic [ 4 - 1 : 0 ] y ;     with 4 at the place of `W
//! `endif
//! ```
#![tactic(auto)]

mod directive;
mod fault;
mod file;
mod law;
mod macros;
mod reading;

pub use directive::{Role, role_of, without_backquote};
pub use fault::PpFault;
pub use file::{preprocess, preprocess_up_to};
pub use law::{conditional, one_answer, plain_files, tokens_or_fault};
