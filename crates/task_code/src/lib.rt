//! The codes of a flat design: what its processes do, as lists of ops that `task_eval` runs.
//!
//! # What comes in, what goes out
//!
//! [`compile`] takes a design and the words that it was cut into, and gives one code for each process, in elaboration order, and
//! then one *commit* for each clocked process, in the same order. A code is sound: its type says that no op lacks an operand and
//! that the stack never holds more values than the code says.
//!
//! # Terms
//!
//! A *word* holds up to 64 neighbouring bits of a variable or of an element of a memory, and a *shadow* is a word that keeps what a clocked
//! process writes to another word until the process is committed (`rtl_pieces`). A process that is not clocked loads and stores
//! words. The body of a clocked process loads words where it reads, so that it sees the values from before, and stores shadows
//! (IEEE 1800-2017 10.4.2); where it writes a part of a word it loads the shadow, puts the part in place, and stores the shadow. Its
//! commit copies the shadows.
//!
//! # How codes are made
//!
//! The ops of a code are put down from its end to its front, in a `Tail`. So what follows is always there, the distance of each
//! jump is known when it is put down, and no op is changed again. Each form of an expression or a statement is one small function,
//! which puts its ops in front of those that follow. It says by how much it makes the stack deeper: an expression pushes one value, a
//! statement leaves the stack as deep as it was. A place where a jump may land is a *mark*, which is opened before what is
//! skipped is put down, and closed after the jump.
//!
//! - Operators take both operands at the width of the op. What is narrower is extended before, by the sign of the context (11.6.1,
//!   11.8.2); the operands of a comparison at the type common to both, and those of `case` at the type common to all.
//! - `&&`, `||`, `?:`, `if` and `case` are jumps, so that only what decides is evaluated (11.3.5, 11.4.11, 12.4, 12.5).
//! - Operands are evaluated from left to right, arguments in order, and the right side before the indices of the left side, which are
//!   taken from left to right. All of these are on the stack before the first store (10.4.1, 11.4.12).
//! - A select by a constant touches only the words that hold its bits. An element at a constant address is found when the code is
//!   made. Otherwise the words of one piece of all elements are one op's.
//! - What is read from several words is joined; what is written to several is cut. A whole word is one op.
//! - The address of an element of several words stays on the stack until they are joined, extended to the width of the widest value;
//!   the element is then put over it.
//!
//! # What is proved
//!
//! `specs/Compiled.antt` has the definitions.
//!
//! - The number of codes is that of the processes and the clocked processes.
//! - The codes are sound, by their type, and name only words of the layout and imports of the design.
//! - The body of a clocked process stores shadows alone, and that of another one stores no shadow.
//! - The part of an element at a constant address out of range is a 0 of as many bits as are named (`specs/Reads.antt`).
//! - A commit is exactly the list of a load of a shadow and a store of its word, for each shadow whose bits the process writes, in
//!   order.
//!
//! That a code makes the writes and the calls of its process is not proved yet.
//!
//! A layout that is not that of the design, and a design that elaboration does not give, are answered by want of memory, since
//! [`compile`] has no other fault; no value is made up. The tests for it are those of `table` and `here`, of the widths that are
//! joined, and of `get`.
//!
//! # Cost
//!
//! Linear in the statements and expressions, where the words of a variable count that is read or written, with a stack as
//! deep as the trees. The table of words is made once. A commit looks at each word of the layout.
//!
//! ```text
//! y[3:0] = a + 1;        word 1 holds a, word 2 holds y, 8 bits each
//! Load { word: 1, width: 8 }                      [a]
//! Push(8'd1)                                      [1, a]
//! Two { op: Add, width: 8, signed: false }        [a + 1]
//! Load { word: 2, width: 8 }                      [y, a + 1]
//! Pick(1)                                         [a + 1, y, a + 1]
//! Slice { at: 0, width: 4 }                       [the low bits, y, a + 1]
//! Place { at: 0 }                                 [y with them, a + 1]
//! Store { word: 2, width: 8 }                     [a + 1]
//! Drop                                            []
//! ```
#![tactic(auto)]

mod body;
mod codes;
mod commit;
mod commits;
mod expression;
mod fault;
mod here;
mod kind;
mod load;
mod ops;
mod part;
mod shadows;
mod sole;
mod stand;
mod statement;
mod table;
mod tail;
mod write;

pub use codes::compile;
