//! The operators by their marks (IEEE 1800-2017 11.3 and 11.4), and the types that they give (table 11-21).

ghost use Rattle.std.specs.Prelude.{◌≡◌};
ghost use Rattle.sv_expr.specs.Operator as by_mark;

use crate::bound::BIT;
use sv_tree::Symbol;
use vs_base::{Bits, ValueType, wider};

/// How an operator with two operands takes them (IEEE 1800-2017 table 11-21).
#[derive(Clone, Copy, Debug, PartialEq, Eq)]
pub enum Class {
    /// Both in the context: `+ - * / % & | ^ ~^ ^~`.
    Arithmetic,
    /// The left one in the context, the right one alone: `<< >> <<< >>>`.
    Shift,
    /// Both at the wider of their types: `< <= > >= == != === !==`.
    Comparison,
    /// Both alone, and both are to hold: `&&`.
    Conjunction,
    /// Both alone, and one is to hold: `||`.
    Disjunction,
}

/// What a system function gives.
#[derive(Clone, Copy, Debug, PartialEq, Eq)]
pub enum Function {
    /// `$clog2`
    CeilingLog,
    /// `$signed`
    Signed,
    /// `$unsigned`
    Unsigned,
}

/// How an operator takes its operands. Any mark that is none counts as an operator on both in the context.
pub fn class_of(mark: Symbol) -> Class
    ensures { result ≡ by_mark.class_of mark }
{
    match mark {
        Symbol::ShiftLeft | Symbol::ShiftRight | Symbol::ArithLeft | Symbol::ArithRight => {
            Class::Shift
        }
        Symbol::Less
        | Symbol::LessEqual
        | Symbol::Greater
        | Symbol::GreaterEqual
        | Symbol::EqualEqual
        | Symbol::BangEqual
        | Symbol::CaseEqual
        | Symbol::CaseUnequal => Class::Comparison,
        Symbol::AmpAmp => Class::Conjunction,
        Symbol::PipePipe => Class::Disjunction,
        _ => Class::Arithmetic,
    }
}

/// The type of two operands.
pub fn combined(class: Class, a: ValueType, b: ValueType) -> ValueType
    ensures { result ≡ by_mark.combined class a b }
{
    match class {
        Class::Arithmetic => wider(a, b),
        Class::Shift => a,
        Class::Comparison | Class::Conjunction | Class::Disjunction => BIT,
    }
}

/// An operator on two operands in one context.
pub fn operated(mark: Symbol, signed: bool, a: Bits, b: Bits) -> Bits
    requires same_width { a.width ≡ b.width }
    ensures value { result ≡ by_mark.operated mark signed a b }
    ensures width { result.width ≡ a.width }
{
    match mark {
        Symbol::Plus => a.add(b),
        Symbol::Minus => a.sub(b),
        Symbol::Star => a.mul(b),
        Symbol::Slash => a.div(b, signed),
        Symbol::Percent => a.rem(b, signed),
        Symbol::Amp => a.bit_and(b),
        Symbol::Pipe => a.bit_or(b),
        Symbol::Caret => a.bit_xor(b),
        Symbol::TildeCaret | Symbol::CaretTilde => a.bit_xnor(b),
        _ => a,
    }
}

/// A shift. `>>>` brings the sign bit in only if the result is signed.
pub fn shifted(mark: Symbol, signed: bool, a: Bits, count: Bits) -> Bits
    ensures value { result ≡ by_mark.shifted mark signed a count }
    ensures width { result.width ≡ a.width }
{
    match mark {
        Symbol::ShiftLeft | Symbol::ArithLeft => a.shift_left(count),
        Symbol::ShiftRight => a.shift_right(count, false),
        Symbol::ArithRight => a.shift_right(count, signed),
        _ => a,
    }
}

/// A comparison of operands of one type.
pub fn compared(mark: Symbol, signed: bool, a: Bits, b: Bits) -> Bits
    requires same_width { a.width ≡ b.width }
    ensures value { result ≡ by_mark.compared mark signed a b }
    ensures width { result.width ≡ 1 }
{
    match mark {
        Symbol::Less => a.less(b, signed),
        Symbol::LessEqual => a.at_most(b, signed),
        Symbol::Greater => b.less(a, signed),
        Symbol::GreaterEqual => b.at_most(a, signed),
        Symbol::BangEqual | Symbol::CaseUnequal => a.unequal(b),
        _ => a.equal(b),
    }
}

/// Whether an operator before its operand takes it alone and gives one bit.
pub fn is_reduction(mark: Symbol) -> bool
    ensures { result ≡ by_mark.is_reduction mark }
{
    matches!(
        mark,
        Symbol::Bang
            | Symbol::Amp
            | Symbol::TildeAmp
            | Symbol::Pipe
            | Symbol::TildePipe
            | Symbol::Caret
            | Symbol::TildeCaret
            | Symbol::CaretTilde
    )
}

/// An operator before its operand.
pub fn prefixed(mark: Symbol, a: Bits) -> Bits
    ensures { result ≡ by_mark.prefixed mark a }
{
    match mark {
        Symbol::Minus => a.neg(),
        Symbol::Tilde => a.bit_not(),
        Symbol::Bang => a.logical_not(),
        Symbol::Amp => a.reduce_and(),
        Symbol::TildeAmp => a.reduce_nand(),
        Symbol::Pipe => a.reduce_or(),
        Symbol::TildePipe => a.reduce_nor(),
        Symbol::Caret => a.reduce_xor(),
        Symbol::TildeCaret | Symbol::CaretTilde => a.reduce_xnor(),
        _ => a,
    }
}
