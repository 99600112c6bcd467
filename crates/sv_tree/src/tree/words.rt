use crate::token::Token;
use crate::tree::expr::Expr;

/// `type = vec [ sign ] [ range ] | fixed [ sign ] | sign [ range ] | range` (IEEE 1800-2017
/// A.2.2.1)
pub enum DataType {
    Vector {
        word: Token,
        sign: Option<Token>,
        range: Option<Range>,
    },
    Fixed(WordType),
    Signed {
        sign: Token,
        range: Option<Range>,
    },
    Ranged(Range),
}

impl Drop for DataType {
    fn drop(self) {
        match self {
            DataType::Vector {
                word: _,
                sign: _,
                range,
            } => {
                let _ = range;
            }
            DataType::Fixed(_) => {}
            DataType::Signed { sign: _, range } => {
                let _ = range;
            }
            DataType::Ranged(part) => {
                let _ = part;
            }
        }
    }
}

/// `fixed [ sign ]`, and the types of an import: `rtype` and `atype`.
#[derive(Clone, Copy, Debug)]
pub struct WordType {
    pub word: Token,
    pub sign: Option<Token>,
}

/// `range = "[" expr ":" expr "]"`
pub struct Range {
    pub open: Token,
    pub left: Expr,
    pub colon: Token,
    pub right: Expr,
    pub close: Token,
}

impl Drop for Range {
    fn drop(self) {
        let Range {
            open: _,
            left,
            colon: _,
            right,
            close: _,
        } = self;
        let _ = left;
        let _ = right;
    }
}

/// `":" NAME`, after a word that opens or closes a block or a module.
#[derive(Clone, Copy, Debug)]
pub struct Label {
    pub colon: Token,
    pub name: Token,
}

/// `NAME "=" expr`
pub struct Setting {
    pub name: Token,
    pub mark: Token,
    pub value: Expr,
}

impl Drop for Setting {
    fn drop(self) {
        let Setting {
            name: _,
            mark: _,
            value,
        } = self;
        let _ = value;
    }
}
