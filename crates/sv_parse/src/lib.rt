//! Reads the tokens of all files of a design as a syntax tree, by recursive descent (IEEE
//! 1800-2017 A.1.2 to A.1.4, A.2, A.4, A.6.2).
//!
//! In come tokens with the table of their names; out comes the [`SourceTree`](sv_tree::SourceTree)
//! that reads them, or a [`ParseFault`] with the number of a token.
//!
//! ```text
//! module m(input a, output y); assign y = !a; endmodule   ->   Module m, 2 ports, 1 item
//! module m; assign y = ; endmodule                        ->   Syntax(6), the `;`
//! module m; initial ; endmodule                           ->   Construct(3), `initial`
//! ```
//!
//! # The faults
//!
//! First all tokens are looked at for one that is *outside of the subset* of the language: the
//! first one is told, whatever stands before it. Then the descent reads descriptions, modules and
//! generate items; `parse_item` reads the items in which no item stands, `parse_stmt` the statements
//! of processes and `parse_expr` the expressions. One token of look-ahead decides everywhere, after
//! common beginnings were read together.
//!
//! So the token at which no production goes on is the first with which no tree goes on, and
//! `Syntax` has its number, or the count of the tokens where more would be needed. `TooDeep` has
//! the number of the first token that stands in more than 128 of the things that count for depth:
//! modules, blocks, statements, generate items (`for`, `if`, `generate`), parentheses, braces,
//! brackets, argument lists (an import's is one) and middle operands of `?:`. The parentheses of
//! `#( .. )`, of events, ports and connections add nothing. A token that may not stand where it
//! does is a fault of syntax, also where it would be too deep.
//!
//! # What is proved
//!
//! A tree that is given reads the tokens: they are its tokens in order, each is what its place
//! asks, and each `else` stands with the nearest `if` (`Reads`, of `sv_tree`). It is at most 128
//! deep. `Construct` comes exactly where a token is outside, with the first one. The other faults
//! come only where none is, and name a token or the end (`specs/Faults.antt`). That theirs is the
//! least such number is not proved; `tests/sentences` of the repository has sentences of
//! each production that break at a known place.
//!
//! `proofs/Rules.antt` has a rule for each form of an item in which items stand, from its parts to
//! the whole, and the proof of each function applies one.
//!
//! # Cost
//!
//! Each token is looked at a fixed number of times, and the symbols of the tokens and the tree are
//! the only memory. The recursion goes as deep as the tree counts for depth.
#![tactic(auto)]

mod chain;
mod class;
mod items;
mod modules;
mod sources;

pub use parse_expr::ParseFault;
pub use sources::parse;
