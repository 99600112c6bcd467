//! The ops of a code.

use crate::index::{Elements, Index};
use vs_base::Bits;

/// An operator with one operand (IEEE 1800-2017 11.4).
#[derive(Clone, Copy, Debug, PartialEq, Eq)]
pub enum One {
    /// `-`, at the operand's width.
    Minus,
    /// `~`, at the operand's width.
    Invert,
    /// `!`: one bit.
    Not,
    /// `&` before its operand: one bit.
    And,
    /// `~&`: one bit.
    Nand,
    /// `|` before its operand: one bit.
    Or,
    /// `~|`: one bit.
    Nor,
    /// `^` before its operand: one bit.
    Xor,
    /// `~^` before its operand: one bit.
    Xnor,
}

/// An operator with two operands (IEEE 1800-2017 11.4). `&&` and `||` are jumps.
#[derive(Clone, Copy, Debug, PartialEq, Eq)]
pub enum Two {
    /// `*`
    Mul,
    /// `/`, which looks at the sign.
    Div,
    /// `%`, which looks at the sign.
    Rem,
    /// `+`
    Add,
    /// `-`
    Sub,
    /// `<<` and `<<<`, by the right operand as it is.
    Shl,
    /// `>>`, and with the sign `>>>`, by the right operand as it is.
    Shr,
    /// `<`, which looks at the sign: one bit, as each comparison.
    Lt,
    /// `<=`, which looks at the sign.
    Le,
    /// `>`, which looks at the sign.
    Gt,
    /// `>=`, which looks at the sign.
    Ge,
    /// `==`
    Eq,
    /// `!=`
    Ne,
    /// `&`
    And,
    /// `^`
    Xor,
    /// `~^`
    Xnor,
    /// `|`
    Or,
}

/// One op of a code. Operands are taken from the top of the stack, the last one pushed first, and what an op gives
/// is pushed. Each width is from 1 to 128 bits, and that of a word from 1 to 64.
#[derive(Clone, Copy, Debug, PartialEq, Eq)]
pub enum Op {
    /// Pushes a constant.
    Push(Bits),
    /// Pushes the word of this number: so many of its low bits.
    Load { word: u32, width: u32 },
    /// Takes an address, and pushes the word of that element: so many of its low bits. It is 0, and no word is
    /// loaded, where there is no such element.
    LoadAt { from: Elements, width: u32 },
    /// Takes a value, and stores so many of its low bits in the word of this number.
    Store { word: u32, width: u32 },
    /// Takes an address, and the value below it, and stores so many of its low bits in the word of that element.
    /// Nothing is stored where there is no such element.
    StoreAt { to: Elements, width: u32 },
    /// Takes a value, and pushes its bits from a place on. Bits outside are 0.
    Slice { at: i64, width: u32 },
    /// Takes an index, and the value below it, and pushes that value's bits from the place of the index on. Bits
    /// outside are 0.
    SliceAt { index: Index, width: u32 },
    /// Takes a part, and the value below it, and pushes that value with the part put at a place. Bits outside are
    /// dropped.
    Place { at: i64 },
    /// Takes an index, the part below it and the value below that, and pushes that value with the part put at the
    /// place of the index. Bits outside are dropped.
    PlaceAt { index: Index },
    /// Takes a value, and pushes it at another width: cut, or extended by zeros, or by the sign bit where `signed`
    /// holds.
    Extend { width: u32, signed: bool },
    /// Takes an operand, and pushes what the operator gives.
    One(One),
    /// Takes the right operand and the left one below it, each at so many bits, and pushes what the operator gives.
    /// `signed` tells whether they are read with a sign.
    Two { op: Two, width: u32, signed: bool },
    /// Takes the low bits and the high ones below them, each at its width, and pushes both as one value. Together
    /// they have at most 128 bits.
    Join { high: u32, low: u32 },
    /// Takes a value at so many bits, and pushes it so many times, one above the other: at least once, and together
    /// at most 128 bits.
    Repeat { times: u32, width: u32 },
    /// Pushes what stands so many places below the top once more; 0 is the top.
    Pick(u32),
    /// Takes a value away.
    Drop,
    /// Skips so many of the ops that follow.
    Skip(u32),
    /// Takes a value, and skips so many of the ops that follow where it is 0.
    SkipIfZero(u32),
    /// Takes a value, and skips so many of the ops that follow where it is not 0.
    SkipIfTrue(u32),
    /// Takes so many arguments, at most 8, of which the last stands on top, calls an import, and pushes the reply: so
    /// many of its low bits. The reply of a void import is 0.
    Call { import: u32, count: u32, width: u32 },
}
