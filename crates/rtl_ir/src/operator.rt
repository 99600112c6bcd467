//! The operators (IEEE 1800-2017 11.4).

/// An operator before its operand.
#[derive(Clone, Copy, Debug, PartialEq, Eq)]
pub enum UnaryOp {
    /// `+`
    Plus,
    /// `-`
    Minus,
    /// `!`
    Not,
    /// `~`
    Invert,
    /// `&`
    And,
    /// `~&`
    Nand,
    /// `|`
    Or,
    /// `~|`
    Nor,
    /// `^`
    Xor,
    /// `~^` and `^~`
    Xnor,
}

/// An operator with two operands.
#[derive(Clone, Copy, Debug, PartialEq, Eq)]
pub enum BinaryOp {
    /// `*`
    Mul,
    /// `/`
    Div,
    /// `%`
    Rem,
    /// `+`
    Add,
    /// `-`
    Sub,
    /// `<<`
    Shl,
    /// `>>`
    Shr,
    /// `<<<`
    AShl,
    /// `>>>`
    AShr,
    /// `<`
    Lt,
    /// `<=`
    Le,
    /// `>`
    Gt,
    /// `>=`
    Ge,
    /// `==` and `===`
    Eq,
    /// `!=` and `!==`
    Ne,
    /// `&`
    And,
    /// `^`
    Xor,
    /// `~^` and `^~`
    Xnor,
    /// `|`
    Or,
    /// `&&`
    LogAnd,
    /// `||`
    LogOr,
}

/// How an operator with two operands takes them (IEEE 1800-2017 table 11-21).
#[derive(Clone, Copy, Debug, PartialEq, Eq)]
pub enum Class {
    /// Both in the context.
    Arithmetic,
    /// The left one in the context, the right one alone.
    Shift,
    /// Both at the wider of their types.
    Comparison,
    /// Both alone.
    Logical,
}

impl UnaryOp {
    /// Whether it takes its operand alone and gives one bit.
    pub fn is_reduction(self) -> bool {
        !matches!(self, UnaryOp::Plus | UnaryOp::Minus | UnaryOp::Invert)
    }
}

impl BinaryOp {
    /// How it takes its operands.
    pub fn class(self) -> Class {
        match self {
            BinaryOp::Shl | BinaryOp::Shr | BinaryOp::AShl | BinaryOp::AShr => Class::Shift,
            BinaryOp::Lt
            | BinaryOp::Le
            | BinaryOp::Gt
            | BinaryOp::Ge
            | BinaryOp::Eq
            | BinaryOp::Ne => Class::Comparison,
            BinaryOp::LogAnd | BinaryOp::LogOr => Class::Logical,
            BinaryOp::Mul
            | BinaryOp::Div
            | BinaryOp::Rem
            | BinaryOp::Add
            | BinaryOp::Sub
            | BinaryOp::And
            | BinaryOp::Xor
            | BinaryOp::Xnor
            | BinaryOp::Or => Class::Arithmetic,
        }
    }
}
