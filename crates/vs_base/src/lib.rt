//! The values and the plain types that every crate speaks of.
//!
//! A value of the hardware language is a width in bits and a number below 2 to that width ([`Bits`]).
//! Whether it is read with a sign is no part of it: the type of the expression that it came from says so
//! ([`ValueType`]), and each call that depends on it takes a `signed`. The rules are those of
//! IEEE 1800-2017, 11.6 (widths) and 11.8 (signs), at two states: a bit is 0 or 1.
//!
//! Each call on values is pinned by a definition of `specs/Number.antt` or `specs/Operators.antt` on width and
//! number alone, so that upper crates never see a machine word. The operators of the language (IEEE 1800-2017
//! 11.4) are here, and nowhere else. No call refuses or takes memory, and each takes a fixed number of steps on
//! words of 128 bits, but for [`Bits::repeat`], which takes one for each copy.
//!
//! An expression has a type of its own, which its operands fix from below (IEEE 1800-2017 11.6.1, table 11-21, and
//! 11.8.1). It is then evaluated in a context: the width goes down again to every operand that is not taken alone, and
//! each operand is extended to it, by its sign bit only where the whole is signed (11.8.2). So `(a + b) >> 1` on two
//! operands of 8 bits that is assigned to 8 bits loses the carry, and `({1'b0, a} + b) >> 1` keeps it. [`wider`],
//! [`assignment_context`] and [`in_context`] are pinned by `specs/Types.antt`.
//!
//! Beside them stand [`Whole`], the number that a value reads; [`Origin`], a place in a source file; [`Text`], a list of bytes; [`Act`], one step of a
//! stimulus; [`Kind`], what a limit counts; and the [`limits`] themselves.
//!
//! ```text
//! let a = Bits::new(4, 0b1000);       // 4'h8, which reads -8 with a sign
//! a.extend(8, true)                   // 8'hf8
//! a.slice(-1, 4)                      // 4'b0000: place -1 reads 0, and the top bit is cut
//! Bits::new(8, 0).place(2, a)         // 8'b00100000
//! a.add(Bits::new(4, 9))              // 4'h1
//! let byte = ValueType { width: 8, signed: true };
//! wider(byte, ValueType { width: 16, signed: false })                     // 16 bits, unsigned
//! in_context(Bits::new(8, 0x80), assignment_context(byte, 16))            // 16'hff80
//! ```
#![tactic(auto)]

mod act;
mod bits;
pub mod limits;
mod origin;
mod text;
mod types;
mod whole;

pub use act::Act;
pub use bits::Bits;
pub use limits::Kind;
pub use origin::Origin;
pub use text::Text;
pub use types::{ValueType, assignment_context, in_context, wider};
pub use whole::Whole;
