//! The base of a parser by recursive descent, and its part for expressions, types and what is
//! assigned (IEEE 1800-2017 A.2.2.1, A.8).
//!
//! In come the tokens of a design with the table of their names; out come parts of the syntax tree
//! of [`sv_tree`], or the fault: [`ParseFault`].
//!
//! # Terms
//!
//! A [`Source`] holds the tokens, each looked up once. A *place* is the number of a token, or at
//! the end the count of them. The *depth* of a place is the number of things that count for depth
//! and that it stands in: parentheses, brackets, braces, argument lists and middle operands of
//! `?:` here, blocks and modules in the parser above. It is at most 128. The *level* of a binary
//! operator is its row of table 11-2, from 1, which binds tightest, to 10.
//!
//! # How a function of the parser is written
//!
//! Each takes the source, the place as `at: &mut usize` and the depth, and moves the place past
//! what it took:
//!
//! ```text
//! pub fn setting(source: &Source<'_>, at: &mut usize, depth: u32) -> Result<Setting, ParseFault>
//!     requires deep { depth ≤ 128 }
//!     requires within { at.old ≤ length source.now.tokens }
//!     ensures reads { IfOk result (λ x. Parsed source.now depth at.old at.new (setting x)) }
//!     ensures fault { IfErr result (λ f. IsWithin source.now f) }
//! ```
//!
//! `Parsed` (`specs/Parsed.antt`) says that the tokens between two places are a part of the tree:
//! they are its tokens in order, each is what its place asks, and none stands in more than 128
//! things. `specs/ParsedLaws.antt` has the laws by which parts that were parsed make a whole:
//! tokens (`token_at`, `one_at`), one part after another (`and`), a thing that counts for depth
//! (`deep`), parts that may be there (`absent`, `present`), and lists (`each_none`, `each_more`).
//!
//! One token of look-ahead decides everywhere: [`Source::peek`] or [`Source::sees`], and then
//! [`Source::take`], [`Source::expect`] or [`Source::take_if`]. So a syntax fault names the first
//! token with which no tree goes on. A thing that counts for depth is entered by [`enter`] or
//! [`inside`], with the place of its first token, after the test that this token may begin it: so
//! a syntax error is told before a tree that is too deep.
//!
//! Operators are read by levels: after an operand come those of level 1 with their operands, then
//! those of level 2, each operand being read up to the level below. What was read so far is the
//! first operand of the next level, so operators of one level stand in one list.
//!
//! ```text
//! a + b * c - d    a        then  + (b * c)  and  - d  at level 2
//! ( a              syntax fault at the end, 2
//! a [ 1 = 0        syntax fault at the `=`, 3
//! ```
//!
//! Before a parse stands [`outside`], which gives the first token that the subset of the language
//! has not.
//!
//! # Cost
//!
//! A token is looked up once and looked at once for each level, so time is linear in the tokens.
//! Each level of depth takes five to twenty calls of the stack. Memory is that of the tree, and
//! 24 bytes a token.
#![tactic(auto)]

mod class;
mod expression;
mod fault;
mod joined;
mod memory;
mod operand;
mod source;
mod subset;
mod target;
mod words;

pub use class::{begins_expr, begins_type, is_fixed, is_vector, level_of};
pub use expression::{args, expr, list, selects};
pub use fault::ParseFault;
pub use memory::{boxed, push};
pub use operand::Operands;
pub use source::{Source, enter, inside, syntax};
pub use subset::outside;
pub use target::lvalue;
pub use words::{
    argument_type, data_type, data_type_if, dimension, dimension_if, fixed_type, initial,
    initial_if, label, label_if, range, range_if, result_type, setting, variable_type,
};
