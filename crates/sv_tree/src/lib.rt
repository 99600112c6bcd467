//! The words that the stages of the front end share: the table of spellings, the token, and the
//! syntax tree.
//!
//! # Names and tokens
//!
//! A token does not hold its text. It holds the number of its text in a table of names, which
//! has each text once, so that two spellings are equal exactly where their numbers are. All files
//! of a design share one table. The table only grows: a number that it gave keeps its text.
//!
//! Contracts see a [`Names`] as the list of its texts, in the order in which they came; a
//! [`NameId`] is a place in that list, from 0. The laws that follow from its invariant stand in
//! `specs/NameLaws.antt`: two numbers with one text are one number, and a grown table has the old
//! texts under the old numbers.
//!
//! The table is a hash set that keeps its order: one look-up for each [`Names::intern`] and
//! [`Names::find`], constant time for [`Names::text`] and [`Names::text_of`], and one copy of each text.
//!
//! ```text
//! intern "clk"  -> 0    table: clk
//! intern "rst"  -> 1    table: clk rst
//! intern "clk"  -> 0    table: clk rst
//! find "data"   -> None
//! text 1        -> "rst"
//! ```
//!
//! # The tree
//!
//! A [`SourceTree`] is all files of a design, as the grammar has them (IEEE 1800-2017 Annex A). It
//! has one type for each production, with the parts of the production as fields in order, and
//! keeps every token, the words and marks too. What stands beside one another in the text stands
//! in one list: operators of one level with their operands, prefix operators, the tests of a chain
//! of `?:` or of `else if`. So a tree nests no deeper than the text does. A list with commas is a
//! first element and further ones, each with its comma.
//!
//! ```text
//! a + b * c - d   is   Level a, [ + Level b, [ * c ], - d ]
//! x ? y : z       is   Choose [ x ? y : ], z
//! ```
//!
//! `specs/Tree.antt` says when a tree *reads* a list of tokens: they are its tokens in order, and
//! the tree is *shaped*. In a shaped tree each token has the kind and spelling that its place asks,
//! each list of operators is of one level with operands that bind tighter, and each `else` stands
//! with the nearest `if`. It also gives the *depth* of each token, the number of things that it
//! stands in. All this is one reading of each part, made from the readings of its parts as the
//! grammar is written: `specs/TreeRead.antt` has the few ways to join them, and `TreeExpr`,
//! `TreeWords`, `TreeStmt`, `TreeItem` and `Tree` have one line or two for each form. The
//! equations of these readings, and induction over them, stand in the files whose names end in
//! `Laws` and `Induction`.
//!
//! To the grammar a token is a [`Symbol`], by its kind and spelling; the tables of words and marks
//! stand beside it. [`symbol_of`] looks a token up, in time linear in the table.
//!
//! [`tokens_of`] gives the tokens of a tree back, in linear time and space.
#![tactic(auto)]

mod names;
mod print;
mod symbol;
mod token;
mod tree;

pub use names::{NameId, Names, NoMemory};
pub use print::source::tokens_of;
pub use symbol::{Symbol, symbol_of};
pub use token::{Token, TokenKind};
pub use tree::expr::{Args, Choice, Expr, Select, Step};
pub use tree::item::{
    Argument, Assignment, Connected, Connection, Connections, Declaration, Dimension, Event,
    GenBlock, Import, Initial, Item, ItemBranch, Linkage, Overrides,
};
pub use tree::list::{CommaList, Joined};
pub use tree::source::{Description, Module, Parameter, ParameterList, Port, PortList, SourceTree};
pub use tree::stmt::{Arm, Branch, LoopHead, LoopStep, Lvalue, LvalueStep, Stmt, Test};
pub use tree::words::{DataType, Label, Range, Setting, WordType};
