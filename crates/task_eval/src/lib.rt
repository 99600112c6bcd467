//! The evaluator: codes, and how a node of the plan runs on them.
//!
//! # What comes in, what goes out
//!
//! A [`Code`] is a list of ops for a machine with a stack of values of 1 to 128 bits. It is made once for each process of a design,
//! and once for each set of nonblocking writes that is to be applied. What the design's state is to a code is a list of words of at
//! most 64 bits, named by their numbers, and a list of imported functions. A variable or an element of a memory may be cut into
//! several words.
//!
//! A node can be run in two ways. [`run_node`] runs it to its end on a [`Bus`], which has the words and the host. With a [`Frame`]
//! alone, [`Frame::ask`] tells what the node wants next, and [`Frame::give`] hands in the value of the word or the reply. Between
//! two asks the words may change, so this is how several threads run their nodes.
//!
//! # The ops, and how they are meant to be used
//!
//! Each op takes its operands from the top of the stack, the last one pushed first, and pushes what it gives. An op has all that
//! it needs: a width, a word, a place, a sign. Arithmetic is that of `vs_base`: both operands of an operator are taken at the
//! width of the op, so a value that was read at another width or sign is extended before (IEEE 1800-2017 11.6.1, 11.8.2).
//!
//! - *Jumps* go forward alone and count ops. `a && b` is `a`, [`Op::SkipIfZero`] past `b`, and the 1 bit of `b`; `if`, `?:` and
//!   `||` likewise, so that only what decides is evaluated (11.3.5, 11.4.11, 12.4).
//! - *`case`* keeps its subject on the stack: [`Op::Pick`] copies it for each label, and [`Op::Drop`] takes it away (12.5).
//! - *A variable of several words* is loaded word by word, the highest first, and joined by [`Op::Join`].
//! - *A write to a part of a word* loads the word, puts the part in place, and stores the word again. The value that is written
//!   and the indices of the left side stay on the stack and are picked, since all of them are evaluated before the first write
//!   (10.4.1, 11.4.12). Bits outside are dropped by [`Op::Place`] and [`Op::PlaceAt`].
//! - *A memory* is [`Elements`]: the words of one piece of each element stand at one distance, so a load or a store of an element
//!   is one op. An address out of range reads 0 and writes nothing, and touches no word (11.5.1, at two states).
//! - *A nonblocking write* goes to a shadow, a word of its own, and a commit code copies the shadows to their words (10.4.2).
//!
//! # Terms
//!
//! A code is *sound* where on every way through its jumps no op lacks an operand, the stack never holds more values than the code
//! says, each jump lands within the ops or at their end, and each width and count is one that its op may have. The type of a code
//! keeps it, so no call here looks for it when it runs. A *course* is what a code does to the outside: it is at its end, or it
//! loads a word and goes on with what it was given, stores a value and goes on, or calls an import and goes on with the reply. A
//! frame *stands* in a course: what is left of it.
//!
//! # What is proved
//!
//! `specs/Moves.antt` says what one op does on a stack, `specs/Course.antt` what a code asks for the values that it was given so
//! far, by recursion on its ops, and `specs/Buses.antt` what it does to the words, the host and the list of stores and calls.
//!
//! - [`Frame::ask`] answers what the course asks that is left: the same for the same code and values given. After a load, a store
//!   or a call the frame stands in the course that follows. Fewer ops are left, so every run ends. Words and imports are those
//!   that stand in the ops.
//! - [`run_node`] leaves the bus as the course of the code does: the same stores and calls, in the same order, with the same
//!   arguments and replies, and no others.
//! - After [`Frame::for_code`] nothing takes memory, and nothing fails.
//!
//! # Cost
//!
//! Each op takes a fixed number of steps, but for a call, which takes one step for each argument, and for what `vs_base` takes to
//! repeat a value. A frame has room for the deepest stack of its codes, 32 bytes a value.
//!
//! ```text
//! word 3 = words 1 + 2, in 8 bits, and the stack, top first
//! Load { word: 1, width: 8 }                      [w1]
//! Load { word: 2, width: 8 }                      [w2, w1]
//! Two { op: Two::Add, width: 8, signed: false }   [w1 + w2]
//! Store { word: 3, width: 8 }                     []
//!
//! frame.start(&code);
//! frame.ask(&code)     // Ask::Load(1); give its value
//! frame.ask(&code)     // Ask::Load(2); give its value
//! frame.ask(&code)     // Ask::Store(3, their sum)
//! frame.ask(&code)     // Ask::Done
//! ```
#![tactic(auto)]

mod bus;
mod code;
mod frame;
mod index;
mod op;
mod operate;
mod run;
mod stack;
mod step;

pub use bus::Bus;
pub use code::Code;
pub use frame::{Ask, Frame};
pub use index::{Elements, Index};
pub use op::{One, Op, Two};
pub use run::run_node;
