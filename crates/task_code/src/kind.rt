//! Widths, signs and operators of expressions (IEEE 1800-2017 11.6.1, 11.8.1).
ghost use Rattle.std.specs.Prelude.{◌≤◌, IfOk};
ghost use Rattle.vs_base.specs.declared.limits.TheConstants.{WORD};

use crate::fault::CodeFault;
use crate::here::Here;
use rtl_ir::{BinaryOp, Call, Class, Expr, UnaryOp, Width};
use task_eval::{One, Two};
use vs_base::limits::WORD;

/// The type of a context.
#[derive(Clone, Copy, Debug, PartialEq, Eq)]
pub(crate) struct Kind {
    pub width: Width,
    pub signed: bool,
}

/// The type of an expression.
pub(crate) fn kind_of(expr: &Expr) -> Kind {
    Kind {
        width: expr.width,
        signed: expr.signed,
    }
}

/// The type at which two operands are compared: the wider width, signed where both are.
pub(crate) fn common(left: &Kind, right: &Kind) -> Kind {
    let width = if left.width.bits() < right.width.bits() {
        right.width
    } else {
        left.width
    };
    Kind {
        width,
        signed: left.signed && right.signed,
    }
}

/// The type at which the subject of a `case` and all its labels are compared.
pub(crate) fn common_of(first: &Kind, others: &[Expr]) -> Kind {
    let mut kind = *first;
    for other in others {
        kind = common(&kind, &kind_of(other));
    }
    kind
}

/// The type to which the first operand of a level is extended.
pub(crate) fn first_kind(operands: &[Expr], operators: &[BinaryOp], kind: &Kind) -> Kind {
    let (Some(first), Some(operator)) = (operands.first(), operators.first()) else {
        return *kind;
    };
    match operator.class() {
        Class::Arithmetic | Class::Shift => *kind,
        Class::Logical => kind_of(first),
        Class::Comparison => match operands.get(1) {
            Some(second) => common(&kind_of(first), &kind_of(second)),
            None => kind_of(first),
        },
    }
}

/// The type at which the right operand of a comparison is compared, by how many operators stand before it: with one bit it is
/// compared at its own width.
pub(crate) fn compared_kind(number: usize, first: &Kind, right: &Expr) -> Kind {
    if number == 0 {
        return *first;
    }
    Kind {
        width: right.width,
        signed: false,
    }
}

/// How many bits the last operator of a level gives in a context.
pub(crate) fn level_width(operators: &[BinaryOp], kind: &Kind) -> u32 {
    let Some(last) = operators.last() else {
        return kind.width.bits();
    };
    match last.class() {
        Class::Arithmetic | Class::Shift => kind.width.bits(),
        Class::Comparison | Class::Logical => 1,
    }
}

/// How many bits parts have together.
pub(crate) fn total_width(parts: &[Expr]) -> u32 {
    let mut width: u32 = 0;
    for part in parts {
        width = width.saturating_add(part.width.bits());
    }
    width
}

/// How many bits the reply of a call has: one bit, which is 0, where the import is void.
pub(crate) fn result_width(call: &Call, here: &Here<'_>) -> Result<Width, CodeFault>
    ensures most { IfOk result (λ width. width ≤ WORD) }
{
    let Some(import) = here.design.imports.get(call.import as usize) else {
        return Err(CodeFault::DoesNotFit);
    };
    match import.result {
        Some(kind) => width(kind.width),
        None => width(1),
    }
}

/// The width of a formal argument.
pub(crate) fn formal_width(import: u32, number: usize, here: &Here<'_>) -> Result<Width, CodeFault>
    ensures most { IfOk result (λ width. width ≤ WORD) }
{
    let Some(import) = here.design.imports.get(import as usize) else {
        return Err(CodeFault::DoesNotFit);
    };
    match import.args.get(number) {
        Some(kind) => width(kind.width),
        None => Err(CodeFault::DoesNotFit),
    }
}

/// So many bits of an argument or a reply, which is one word.
fn width(bits: u32) -> Result<Width, CodeFault>
    ensures most { IfOk result (λ width. width ≤ WORD) }
{
    if bits == 0 || bits > WORD {
        return Err(CodeFault::DoesNotFit);
    }
    Ok(Width::new(bits))
}

/// The place of the outermost reduction among operators, or how many there are.
pub(crate) fn reductions(operators: &[UnaryOp]) -> usize {
    for (number, operator) in operators.iter().enumerate() {
        if operator.is_reduction() {
            return number;
        }
    }
    operators.len()
}

/// The operator with one operand; `+` is none.
pub(crate) fn unary(operator: UnaryOp) -> Option<One> {
    match operator {
        UnaryOp::Plus => None,
        UnaryOp::Minus => Some(One::Minus),
        UnaryOp::Not => Some(One::Not),
        UnaryOp::Invert => Some(One::Invert),
        UnaryOp::And => Some(One::And),
        UnaryOp::Nand => Some(One::Nand),
        UnaryOp::Or => Some(One::Or),
        UnaryOp::Nor => Some(One::Nor),
        UnaryOp::Xor => Some(One::Xor),
        UnaryOp::Xnor => Some(One::Xnor),
    }
}

/// The operator with two operands; `&&` and `||` are jumps.
pub(crate) fn binary(operator: BinaryOp) -> Option<Two> {
    match operator {
        BinaryOp::Mul => Some(Two::Mul),
        BinaryOp::Div => Some(Two::Div),
        BinaryOp::Rem => Some(Two::Rem),
        BinaryOp::Add => Some(Two::Add),
        BinaryOp::Sub => Some(Two::Sub),
        BinaryOp::Shl | BinaryOp::AShl => Some(Two::Shl),
        BinaryOp::Shr | BinaryOp::AShr => Some(Two::Shr),
        BinaryOp::Lt => Some(Two::Lt),
        BinaryOp::Le => Some(Two::Le),
        BinaryOp::Gt => Some(Two::Gt),
        BinaryOp::Ge => Some(Two::Ge),
        BinaryOp::Eq => Some(Two::Eq),
        BinaryOp::Ne => Some(Two::Ne),
        BinaryOp::And => Some(Two::And),
        BinaryOp::Xor => Some(Two::Xor),
        BinaryOp::Xnor => Some(Two::Xnor),
        BinaryOp::Or => Some(Two::Or),
        BinaryOp::LogAnd | BinaryOp::LogOr => None,
    }
}
