//! Types of expressions, and the contexts in which operands are evaluated.

ghost use Rattle.std.specs.Prelude.{◌≡◌, ◌≤◌};
ghost use Rattle.vs_base.specs.Types.{wider as wider_type, assigned_in, in_context as number_in_context};

use crate::bits::Bits;

/// The type of an expression or a variable: its width in bits, and whether it is read with a sign
/// (IEEE 1800-2017 11.6.1 and 11.8.1).
#[derive(Clone, Copy, Debug, PartialEq, Eq)]
pub struct ValueType {
    pub width: u32,
    pub signed: bool,
}

/// The type of an operator that takes both operands in one context, as `+ - * / % & | ^ ~^`: the greater width,
/// and signed where both are (IEEE 1800-2017 11.6.1 and 11.8.1).
pub fn wider(a: ValueType, b: ValueType) -> ValueType
    ensures { result ≡ wider_type a b }
{
    ValueType {
        width: a.width.max(b.width),
        signed: a.signed && b.signed,
    }
}

/// The context of a right side of type `right` that is assigned to `left_width` bits: the greater width, and the
/// right side's sign (IEEE 1800-2017 11.6.1 and 11.8.1).
pub fn assignment_context(right: ValueType, left_width: u32) -> ValueType
    ensures { result ≡ assigned_in right left_width }
{
    ValueType {
        width: right.width.max(left_width),
        signed: right.signed,
    }
}

/// The value of an operand in a context, whose width is from 1 to 128 bits: extended by its sign bit where the
/// context is signed, else by zeros, or cut (IEEE 1800-2017 11.8.2).
pub fn in_context(value: Bits, context: ValueType) -> Bits
    requires some { 1 ≤ context.width }
    requires most { context.width ≤ 128 }
    ensures { result ≡ number_in_context value context }
{
    value.extend(context.width, context.signed)
}
