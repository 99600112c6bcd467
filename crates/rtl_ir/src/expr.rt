use crate::operator::{BinaryOp, UnaryOp};
use crate::width::Width;
use sqlite_items::{Boxed, Items};
use vs_base::Bits;

/// An expression of a design with the width and the sign of its context (IEEE 1800-2017 11.6.1 and 11.8.2).
#[cycle(expr)]
#[derive(Drop)]
pub struct Expr {
    /// How many bits the value has.
    pub width: Width,
    /// Whether the value is read with a sign.
    pub signed: bool,
    pub node: ExprNode,
}

/// What an expression computes.
#[cycle(expr)]
#[derive(Drop)]
pub enum ExprNode {
    /// A value as wide as its expression.
    Const(Bits),
    /// The value of a variable, an element of a memory or a select of one of them, extended to the expression.
    Read(Target),
    /// Operators before an operand, the outermost first.
    Prefix(Items<UnaryOp>, Boxed<Expr>),
    /// Operators of one level and their operands, one more than operators. They group from the left.
    Level(Items<Expr>, Items<BinaryOp>),
    /// A chain of `?:`, and the value where no test holds.
    Choose(Items<Choice>, Boxed<Expr>),
    /// Parts one beside the other, the one with the highest bits first.
    Concat(Items<Expr>),
    /// So many times the parts one beside the other.
    Repeat(u32, Items<Expr>),
    /// The result of an import.
    Call(Call),
    /// `$signed` or `$unsigned`.
    Sign(Boxed<Expr>),
}

/// A test of a chain of `?:` and the value where it holds.
#[cycle(expr)]
#[derive(Drop)]
pub struct Choice {
    pub test: Expr,
    pub value: Expr,
}

/// A call of an import.
#[cycle(expr)]
#[derive(Drop)]
pub struct Call {
    pub import: u32,
    pub args: Items<Expr>,
}

/// A variable or an element of a memory, or a select of one of them.
#[cycle(expr)]
#[derive(Drop)]
pub struct Target {
    pub mem: bool,
    pub item: u32,
    pub element: Option<Boxed<Expr>>,
    pub select: Option<Select>,
    pub whole: bool,
}

/// A bit select or a part select.
#[cycle(expr)]
#[derive(Drop)]
pub struct Select {
    pub at: Boxed<Expr>,
    pub width: Width,
    pub down: bool,
}
