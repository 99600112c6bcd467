use crate::token::Token;
use crate::tree::expr::{Args, Expr};
use crate::tree::list::CommaList;
use crate::tree::stmt::{LoopHead, Lvalue, Stmt, Test};
use crate::tree::words::{DataType, Label, Range, Setting, WordType};
use sqlite_items::{Boxed, Items};

/// An item of a module (IEEE 1800-2017 A.1.4).
#[cycle(item)]
#[derive(Drop)]
pub enum Item {
    /// `";"`
    Empty(Token),
    Import(Import),
    /// `( "parameter" | "localparam" ) [ type ] NAME "=" expr { "," NAME "=" expr } ";"`
    Parameters {
        word: Token,
        kind: Option<DataType>,
        settings: CommaList<Setting>,
        semicolon: Token,
    },
    /// `( vec [ sign ] [ range ] | fixed [ sign ] ) declr { "," declr } ";"`
    Variables {
        kind: DataType,
        declarations: CommaList<Declaration>,
        semicolon: Token,
    },
    /// `"assign" lvalue "=" expr { "," lvalue "=" expr } ";"`
    Assigns {
        word: Token,
        assignments: CommaList<Assignment>,
        semicolon: Token,
    },
    /// `"always_comb" stmt`
    Comb {
        word: Token,
        body: Stmt,
    },
    /// `"always" "@" "*" stmt`
    Star {
        word: Token,
        at: Token,
        star: Token,
        body: Stmt,
    },
    /// `"always" "@" "(" "*" ")" stmt`
    ParenStar {
        word: Token,
        at: Token,
        open: Token,
        star: Token,
        close: Token,
        body: Stmt,
    },
    /// `( "always_ff" | "always" ) "@" "(" event { ( "or" | "," ) event } ")" stmt`
    Clocked {
        word: Token,
        at: Token,
        open: Token,
        events: CommaList<Event>,
        close: Token,
        body: Stmt,
    },
    /// `"genvar" NAME { "," NAME } ";"`
    Genvars {
        word: Token,
        names: CommaList<Token>,
        semicolon: Token,
    },
    /// `"generate" { item } "endgenerate"`
    Generate {
        word: Token,
        items: Items<Item>,
        end: Token,
    },
    /// `"for" "(" [ "genvar" ] NAME "=" expr ";" expr ";" step ")" gblock`
    For {
        head: LoopHead,
        body: Boxed<GenBlock>,
    },
    /// `"if" "(" expr ")" gblock`, after the branches that stand before it: no `else` follows.
    If {
        branches: Items<ItemBranch>,
        test: Test,
        body: Boxed<GenBlock>,
    },
    /// Branches, and the block after the last `else`, which is no `if`.
    IfElse {
        branches: Items<ItemBranch>,
        last: Boxed<GenBlock>,
    },
    /// `NAME [ "#" "(" [ conns ] ")" ] NAME "(" [ conns ] ")" ";"`
    Instance {
        module: Token,
        overrides: Option<Overrides>,
        name: Token,
        open: Token,
        connections: Connections,
        close: Token,
        semicolon: Token,
    },
}

/// `"if" "(" expr ")" gblock "else"`, one test of a chain of `else if`.
#[cycle(item)]
#[derive(Drop)]
pub struct ItemBranch {
    pub test: Test,
    pub body: GenBlock,
    pub else_word: Token,
}

/// `gblock = item | "begin" [ ":" NAME ] { item } "end" [ ":" NAME ]` (IEEE 1800-2017 A.4.2)
#[cycle(item)]
#[derive(Drop)]
pub enum GenBlock {
    Item(Boxed<Item>),
    Block {
        begin: Token,
        label: Option<Label>,
        items: Items<Item>,
        end: Token,
        end_label: Option<Label>,
    },
}

/// `declr = NAME [ "[" expr [ ":" expr ] "]" ] [ "=" expr ]` (IEEE 1800-2017 A.2.4)
pub struct Declaration {
    pub name: Token,
    pub dimension: Option<Dimension>,
    pub value: Option<Initial>,
}

impl Drop for Declaration {
    fn drop(self) {
        let Declaration {
            name: _,
            dimension,
            value,
        } = self;
        let _ = dimension;
        let _ = value;
    }
}

/// `"[" expr [ ":" expr ] "]"`, which makes a memory.
pub enum Dimension {
    Count {
        open: Token,
        count: Expr,
        close: Token,
    },
    Bounds(Range),
}

impl Drop for Dimension {
    fn drop(self) {
        match self {
            Dimension::Count {
                open: _,
                count,
                close: _,
            } => {
                let _ = count;
            }
            Dimension::Bounds(part) => {
                let _ = part;
            }
        }
    }
}

/// `"=" expr`
pub struct Initial {
    pub mark: Token,
    pub value: Expr,
}

impl Drop for Initial {
    fn drop(self) {
        let Initial { mark: _, value } = self;
        let _ = value;
    }
}

/// `lvalue "=" expr`
pub struct Assignment {
    pub target: Lvalue,
    pub mark: Token,
    pub value: Expr,
}

impl Drop for Assignment {
    fn drop(self) {
        let Assignment {
            target,
            mark: _,
            value,
        } = self;
        let _ = target;
        let _ = value;
    }
}

/// `event = ( "posedge" | "negedge" ) NAME`
#[derive(Clone, Copy, Debug)]
pub struct Event {
    pub edge: Token,
    pub name: Token,
}

/// `"#" "(" [ conns ] ")"`
pub struct Overrides {
    pub hash: Token,
    pub open: Token,
    pub connections: Connections,
    pub close: Token,
}

impl Drop for Overrides {
    fn drop(self) {
        let Overrides {
            hash: _,
            open: _,
            connections,
            close: _,
        } = self;
        let _ = connections;
    }
}

/// `[ conns ]`, where `conns = expr { "," expr } | conn { "," conn }`
pub enum Connections {
    Ordered(Args),
    Named(CommaList<Connection>),
}

impl Drop for Connections {
    fn drop(self) {
        match self {
            Connections::Ordered(part) => {
                let _ = part;
            }
            Connections::Named(part) => {
                let _ = part;
            }
        }
    }
}

/// `conn = "." NAME [ "(" [ expr ] ")" ]`
pub struct Connection {
    pub dot: Token,
    pub name: Token,
    pub value: Option<Connected>,
}

impl Drop for Connection {
    fn drop(self) {
        let Connection {
            dot: _,
            name: _,
            value,
        } = self;
        let _ = value;
    }
}

/// `"(" [ expr ] ")"`
pub struct Connected {
    pub open: Token,
    pub value: Option<Expr>,
    pub close: Token,
}

impl Drop for Connected {
    fn drop(self) {
        let Connected {
            open: _,
            value,
            close: _,
        } = self;
        let _ = value;
    }
}

/// `import = "import" TEXT [ "pure" | "context" ] [ NAME "=" ] "function" rtype NAME
/// "(" [ arg { "," arg } ] ")" ";"` (IEEE 1800-2017 A.2.6)
pub struct Import {
    pub word: Token,
    pub text: Token,
    pub manner: Option<Token>,
    pub linkage: Option<Linkage>,
    pub function: Token,
    pub result: WordType,
    pub name: Token,
    pub open: Token,
    pub args: Option<CommaList<Argument>>,
    pub close: Token,
    pub semicolon: Token,
}

impl Drop for Import {
    fn drop(self) {
        let Import {
            word: _,
            text: _,
            manner: _,
            linkage: _,
            function: _,
            result: _,
            name: _,
            open: _,
            args,
            close: _,
            semicolon: _,
        } = self;
        let _ = args;
    }
}

/// `NAME "="`, the name under which an import is found.
#[derive(Clone, Copy, Debug)]
pub struct Linkage {
    pub name: Token,
    pub mark: Token,
}

/// `arg = [ "input" ] atype [ NAME ]`
#[derive(Clone, Copy, Debug)]
pub struct Argument {
    pub input: Option<Token>,
    pub kind: WordType,
    pub name: Option<Token>,
}
