//! The operators.
ghost use Rattle.std.specs.Prelude.{◌≡◌, ◌≤◌};
ghost use Rattle.vs_base.specs.Number.{kept};
ghost use Rattle.task_eval.specs.Moves.{operated, operated_alone, between, right_side};

use crate::op::{One, Two};
use vs_base::Bits;

// What an operator gives for one operand.
pub(crate) fn operate_alone(op: One, operand: Bits) -> Bits
    ensures { result ≡ operated_alone op operand }
{
    match op {
        One::Minus => operand.neg(),
        One::Invert => operand.bit_not(),
        One::Not => operand.logical_not(),
        One::And => operand.reduce_and(),
        One::Nand => operand.reduce_nand(),
        One::Or => operand.reduce_or(),
        One::Nor => operand.reduce_nor(),
        One::Xor => operand.reduce_xor(),
        One::Xnor => operand.reduce_xnor(),
    }
}

// What an operator gives for two operands, each taken at so many bits.
pub(crate) fn operate(op: Two, width: u32, signed: bool, left: Bits, right: Bits) -> Bits
    requires some { 1 ≤ width }
    requires most { width ≤ 128 }
    ensures { result ≡ operated op width signed left right }
{
    let a = Bits::new(width, left.value());
    match op {
        Two::Shl => a.shift_left(right),
        Two::Shr => a.shift_right(right, signed),
        _ => combine(op, signed, a, Bits::new(width, right.value())),
    }
}

// What an operator gives for two operands of one width.
fn combine(op: Two, signed: bool, a: Bits, b: Bits) -> Bits
    requires same_width { a.width ≡ b.width }
    ensures { result ≡ between op signed a b }
{
    match op {
        Two::Mul => a.mul(b),
        Two::Div => a.div(b, signed),
        Two::Rem => a.rem(b, signed),
        Two::Add => a.add(b),
        Two::Sub => a.sub(b),
        Two::Shl => a.shift_left(b),
        Two::Shr => a.shift_right(b, signed),
        Two::Lt => a.less(b, signed),
        Two::Le => a.at_most(b, signed),
        Two::Gt => b.less(a, signed),
        Two::Ge => b.at_most(a, signed),
        Two::Eq => a.equal(b),
        Two::Ne => a.unequal(b),
        Two::And => a.bit_and(b),
        Two::Xor => a.bit_xor(b),
        Two::Xnor => a.bit_xnor(b),
        Two::Or => a.bit_or(b),
    }
}
