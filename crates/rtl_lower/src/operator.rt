//! Operators by their marks.

use rtl_ir::{BinaryOp, UnaryOp};
use sv_expr::symbol;
use sv_tree::{Names, Symbol, Token};

/// An operator before its operand. `None`: the mark is none.
pub fn unary(names: &Names, mark: Token) -> Option<UnaryOp> {
    match symbol(names, mark) {
        Symbol::Plus => Some(UnaryOp::Plus),
        Symbol::Minus => Some(UnaryOp::Minus),
        Symbol::Bang => Some(UnaryOp::Not),
        Symbol::Tilde => Some(UnaryOp::Invert),
        Symbol::Amp => Some(UnaryOp::And),
        Symbol::TildeAmp => Some(UnaryOp::Nand),
        Symbol::Pipe => Some(UnaryOp::Or),
        Symbol::TildePipe => Some(UnaryOp::Nor),
        Symbol::Caret => Some(UnaryOp::Xor),
        Symbol::TildeCaret | Symbol::CaretTilde => Some(UnaryOp::Xnor),
        _ => None,
    }
}

/// An operator with two operands. `None`: the mark is none.
pub fn binary(names: &Names, mark: Token) -> Option<BinaryOp> {
    let mark = symbol(names, mark);
    match mark {
        Symbol::Star => Some(BinaryOp::Mul),
        Symbol::Slash => Some(BinaryOp::Div),
        Symbol::Percent => Some(BinaryOp::Rem),
        Symbol::Plus => Some(BinaryOp::Add),
        Symbol::Minus => Some(BinaryOp::Sub),
        Symbol::ShiftLeft => Some(BinaryOp::Shl),
        Symbol::ShiftRight => Some(BinaryOp::Shr),
        Symbol::ArithLeft => Some(BinaryOp::AShl),
        Symbol::ArithRight => Some(BinaryOp::AShr),
        Symbol::Amp => Some(BinaryOp::And),
        Symbol::Caret => Some(BinaryOp::Xor),
        Symbol::TildeCaret | Symbol::CaretTilde => Some(BinaryOp::Xnor),
        Symbol::Pipe => Some(BinaryOp::Or),
        Symbol::AmpAmp => Some(BinaryOp::LogAnd),
        Symbol::PipePipe => Some(BinaryOp::LogOr),
        _ => comparison(mark),
    }
}

/// A comparison.
fn comparison(mark: Symbol) -> Option<BinaryOp> {
    match mark {
        Symbol::Less => Some(BinaryOp::Lt),
        Symbol::LessEqual => Some(BinaryOp::Le),
        Symbol::Greater => Some(BinaryOp::Gt),
        Symbol::GreaterEqual => Some(BinaryOp::Ge),
        Symbol::EqualEqual | Symbol::CaseEqual => Some(BinaryOp::Eq),
        Symbol::BangEqual | Symbol::CaseUnequal => Some(BinaryOp::Ne),
        _ => None,
    }
}
