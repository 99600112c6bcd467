//! What declarations and the heads of generate constructs mean in a scope: types of variables and ports, addresses of memories,
//! types and values of parameters, turns of loops, and the branch of an `if` that is taken.
//!
//! # Calls
//!
//! In come a part of the syntax tree and a [`ScopeView`](sv_expr::ScopeView), which says what names denote where
//! the part stands. Out comes what it means, or its first fault: the expressions in it from left to right, each
//! whole, then the thing that holds them, and of one thing a bad range before a width. Elaboration and the lowering of
//! a design both call these, so that each rule stands once.
//!
//! - A *packed type* is a width with a sign and the declared index of the lowest bit (IEEE 1800-2017 6.8, 6.9,
//!   7.4.1): [`packed_type`], [`word_kind`], and [`result_kind`] of an import. A *memory* has elements of a packed type
//!   at [`bounds`] (7.4.2).
//! - A *port* takes what it leaves out from the port before it (23.2.2.3): [`port_type`].
//! - A *parameter* has the type that it is declared with, or that of its value (6.20.2): [`entry_type`] in a parameter
//!   list, [`item_type`] in an item, [`parameter_value`] for both and for an override.
//! - The variable of a *loop* has 32 bits and a sign (27.4). Its turns are the values from [`start_value`] and by
//!   [`next_value`] for as long as the condition [`holds`]; the condition and the step stand in a scope in which the
//!   variable is a constant with the value of the turn.
//! - Of a generate `if` the first test that holds decides (27.5): [`block_taken`].
//!
//! The definitions stand in specs/, over those of expressions in `sv_expr`, a file a subject: `Packed.antt` and `Word.antt`, `Memory.antt`,
//! `Port.antt`, `Parameter.antt`, `Value.antt`, `Turns.antt`, and `Branch.antt` for the block of an `if`.
//!
//! # Cost
//!
//! No call takes memory. Each walks its expressions a few times, as those of `sv_expr` do.
//!
//! ```text
//! packed_type  logic signed [7:4]        4 bits, signed, lowest index 4
//! packed_type  byte unsigned             8 bits, no sign, lowest index 0
//! bounds       [3:-1]                    5 elements from -1
//! parameter    bit [8:0] P = 8'hff + 8'h01      9'h100
//! turns        i = 6; i > 0; i -= 2      6, 4, 2
//! ```
#![tactic(auto)]

mod branch;
mod kinds;
mod memory;
mod packed;
mod parameter;
mod port;
mod turns;
mod value;
mod word;

pub use branch::block_taken;
pub use kinds::{Bounds, Direction, Packed, ParameterType, PortType};
pub use memory::bounds;
pub use packed::{one_bit, packed_type};
pub use parameter::{converted, entry_type, item_type, parameter_type, parameter_value};
pub use port::{no_port, port_type};
pub use turns::{holds, next_value, start_value};
pub use value::{COUNTER, assigned_value, counter_value, cut};
pub use word::{has_sign, is_signed, result_kind, word_kind};
