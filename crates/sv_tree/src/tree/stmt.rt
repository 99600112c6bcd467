use crate::token::Token;
use crate::tree::expr::{Args, Expr, Select};
use crate::tree::words::{Label, Setting};
use sqlite_items::{Boxed, Items};

/// A statement (IEEE 1800-2017 A.6.4).
#[cycle(stmt)]
#[derive(Drop)]
pub enum Stmt {
    /// `";"`
    Empty(Token),
    /// `"begin" [ ":" NAME ] { stmt } "end" [ ":" NAME ]`
    Block {
        begin: Token,
        label: Option<Label>,
        body: Items<Stmt>,
        end: Token,
        end_label: Option<Label>,
    },
    /// `"if" "(" expr ")" stmt`, after the branches that stand before it: no `else` follows.
    If {
        branches: Items<Branch>,
        test: Test,
        body: Boxed<Stmt>,
    },
    /// Branches, and the statement after the last `else`, which is no `if`.
    IfElse {
        branches: Items<Branch>,
        last: Boxed<Stmt>,
    },
    /// `"case" "(" expr ")" { arm } "endcase"`
    Case {
        word: Token,
        open: Token,
        subject: Expr,
        close: Token,
        arms: Items<Arm>,
        end: Token,
    },
    /// `"for" "(" ( "int" | "integer" ) NAME "=" expr ";" expr ";" step ")" stmt`
    For {
        head: LoopHead,
        body: Boxed<Stmt>,
    },
    /// `lvalue ( "=" | "<=" ) expr ";"`
    Assign {
        target: Lvalue,
        mark: Token,
        value: Expr,
        semicolon: Token,
    },
    /// `NAME "(" [ expr { "," expr } ] ")" ";"`
    Call {
        name: Token,
        open: Token,
        args: Args,
        close: Token,
        semicolon: Token,
    },
}

/// `"if" "(" expr ")" stmt "else"`, one test of a chain of `else if`.
#[cycle(stmt)]
#[derive(Drop)]
pub struct Branch {
    pub test: Test,
    pub body: Stmt,
    pub else_word: Token,
}

/// `expr { "," expr } ":" stmt | "default" [ ":" ] stmt`, an arm of a `case`.
#[cycle(stmt)]
#[derive(Drop)]
pub enum Arm {
    Labels {
        first: Expr,
        more: Items<crate::tree::expr::Step>,
        colon: Token,
        body: Boxed<Stmt>,
    },
    Default {
        word: Token,
        colon: Option<Token>,
        body: Boxed<Stmt>,
    },
}

/// `"if" "(" expr ")"`
pub struct Test {
    pub word: Token,
    pub open: Token,
    pub test: Expr,
    pub close: Token,
}

impl Drop for Test {
    fn drop(self) {
        let Test {
            word: _,
            open: _,
            test,
            close: _,
        } = self;
        let _ = test;
    }
}

/// `"for" "(" [ word ] NAME "=" expr ";" expr ";" step ")"`, the head of a loop. The word is
/// `int` or `integer` in a statement, and `genvar` or none among items.
pub struct LoopHead {
    pub word: Token,
    pub open: Token,
    pub kind: Option<Token>,
    pub start: Setting,
    pub first: Token,
    pub test: Expr,
    pub second: Token,
    pub step: LoopStep,
    pub close: Token,
}

impl Drop for LoopHead {
    fn drop(self) {
        let LoopHead {
            word: _,
            open: _,
            kind: _,
            start,
            first: _,
            test,
            second: _,
            step,
            close: _,
        } = self;
        let _ = start;
        let _ = test;
        let _ = step;
    }
}

/// `step = NAME "=" expr | NAME ( "++" | "--" ) | ( "++" | "--" ) NAME | NAME ( "+=" | "-=" ) expr`
pub enum LoopStep {
    /// With `=`, `+=` or `-=`.
    Set(Setting),
    After { name: Token, mark: Token },
    Before { mark: Token, name: Token },
}

impl Drop for LoopStep {
    fn drop(self) {
        match self {
            LoopStep::Set(part) => {
                let _ = part;
            }
            LoopStep::After { name: _, mark: _ } => {}
            LoopStep::Before { mark: _, name: _ } => {}
        }
    }
}

/// `lvalue = NAME { select } | "{" lvalue { "," lvalue } "}"` (IEEE 1800-2017 A.8.5)
#[cycle(lvalue)]
#[derive(Drop)]
pub enum Lvalue {
    Name {
        name: Token,
        selects: Items<Select>,
    },
    Concat {
        open: Token,
        first: Boxed<Lvalue>,
        more: Items<LvalueStep>,
        close: Token,
    },
}

/// A comma and the lvalue after it.
#[cycle(lvalue)]
#[derive(Drop)]
pub struct LvalueStep {
    pub comma: Token,
    pub target: Lvalue,
}
