use crate::token::Token;
use sqlite_items::{Boxed, Items};

/// An expression (IEEE 1800-2017 A.8.3, A.8.4). Operators are kept as they stand: those of one
/// level in one list, prefix operators in one list, and a chain of `?:` in one list.
#[cycle(expr)]
#[derive(Drop)]
pub enum Expr {
    /// `DECIMAL`
    Decimal(Token),
    /// `BASED`
    Based(Token),
    /// `DECIMAL BASED`
    Sized {
        size: Token,
        digits: Token,
    },
    /// `FILL`
    Fill(Token),
    /// `NAME { select }`
    Name {
        name: Token,
        selects: Items<Select>,
    },
    /// `"(" expr ")"`
    Paren {
        open: Token,
        inner: Boxed<Expr>,
        close: Token,
    },
    /// `"{" expr { "," expr } "}"`
    Concat {
        open: Token,
        first: Boxed<Expr>,
        more: Items<Step>,
        close: Token,
    },
    /// `"{" expr "{" expr { "," expr } "}" "}"`
    Repeat {
        open: Token,
        count: Boxed<Expr>,
        inner_open: Token,
        first: Boxed<Expr>,
        more: Items<Step>,
        inner_close: Token,
        close: Token,
    },
    /// `NAME "(" [ expr { "," expr } ] ")"`
    Call {
        name: Token,
        open: Token,
        args: Args,
        close: Token,
    },
    /// `SYSTEM "(" expr ")"`
    System {
        name: Token,
        open: Token,
        arg: Boxed<Expr>,
        close: Token,
    },
    /// Prefix operators, the outermost first, and the primary after them.
    Prefix {
        operators: Items<Token>,
        operand: Boxed<Expr>,
    },
    /// The operators of one level with their operands. They group from the left.
    Level {
        first: Boxed<Expr>,
        more: Items<Step>,
    },
    /// A chain of `?:`, which groups from the right, and the value where no test holds.
    Choose {
        choices: Items<Choice>,
        last: Boxed<Expr>,
    },
}

/// `[ expr { "," expr } ]`, the arguments of a call.
#[cycle(expr)]
#[derive(Drop)]
pub enum Args {
    Empty,
    Listed {
        first: Boxed<Expr>,
        more: Items<Step>,
    },
}

/// `expr "?" expr ":"`, a test and the value where it holds.
#[cycle(expr)]
#[derive(Drop)]
pub struct Choice {
    pub test: Expr,
    pub question: Token,
    pub value: Expr,
    pub colon: Token,
}

/// `select = "[" expr "]" | "[" expr ( ":" | "+:" | "-:" ) expr "]"`
#[cycle(expr)]
#[derive(Drop)]
pub enum Select {
    Bit {
        open: Token,
        at: Boxed<Expr>,
        close: Token,
    },
    Part {
        open: Token,
        from: Boxed<Expr>,
        mark: Token,
        to: Boxed<Expr>,
        close: Token,
    },
}

/// A comma or an operator, and the operand after it.
#[cycle(expr)]
#[derive(Drop)]
pub struct Step {
    pub mark: Token,
    pub operand: Expr,
}
