use crate::names::NameId;
use vs_base::Origin;

/// The kind of a token (IEEE 1800-2017 clause 5).
#[derive(Clone, Copy, Debug, PartialEq, Eq)]
pub enum TokenKind {
    /// A simple identifier that is no reserved word, as `clk` (5.6).
    Name,
    /// A reserved word, as `module` (5.6.2).
    Word,
    /// Decimal digits, as `12_000` (5.7.1).
    Decimal,
    /// A base and the digits after it, as `'hFF` or `'sd3`; a size before it is a token of its
    /// own (5.7.1).
    Based,
    /// An unsized literal that fills its context, `'0` or `'1` (5.7.1).
    Fill,
    /// A string in its quotes, as `"DPI-C"` (5.9).
    Text,
    /// The name of a system task or function, as `$clog2` (5.6.3).
    System,
    /// A compiler directive or the use of a macro, as `` `define `` (5.6.4).
    Directive,
    /// An operator or a mark of punctuation, as `<<=` or `;` (5.5).
    Mark,
}

/// A token: its kind, its spelling as the number of a name, and where its first byte stands.
#[derive(Clone, Copy, Debug, PartialEq, Eq)]
pub struct Token {
    /// What kind of token it is.
    pub kind: TokenKind,
    /// Its whole spelling, with quotes, `$` and backquote.
    pub name: NameId,
    /// The place of its first byte.
    pub at: Origin,
}
