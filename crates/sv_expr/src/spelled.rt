//! What tokens are by their spelling. A number that the table of names does not have counts as no text.

ghost use Rattle.std.specs.Prelude.{◌≡◌, ◌<◌, [], get_or, length};
ghost use Rattle.sv_tree.specs.Spelling.{symbol_by, symbol_of as symbol_by_table};
ghost use Rattle.sv_expr.specs.Operator.{function_of as function_by_text};

use crate::operator::Function;
use sv_tree::{Names, Symbol, Token, TokenKind, symbol_of};

/// The ceiling of the logarithm (IEEE 1800-2017 20.8.1).
const CLOG2: &[u8] = b"$clog2";

/// The conversion to a signed type (IEEE 1800-2017 6.24.1).
const SIGNED: &[u8] = b"$signed";

/// What a token is to the grammar.
#[tactic(auto, unfolding(sv_tree::specs::Spelling::symbol_of), using(crate::proofs::Texts::no_text))]
pub fn symbol(names: &Names, token: Token) -> Symbol
    ensures { result ≡ symbol_by_table names.now token }
{
    if (token.name.0 as usize) < names.len() {
        return symbol_of(names, token);
    }
    by_kind(token.kind)
}

/// What a token without a text is to the grammar.
#[tactic(auto, unfolding(sv_tree::specs::Spelling::words, sv_tree::specs::Spelling::marks))]
fn by_kind(kind: TokenKind) -> Symbol
    ensures { result ≡ symbol_by kind [] }
{
    match kind {
        TokenKind::Name => Symbol::Name,
        TokenKind::Decimal => Symbol::Decimal,
        TokenKind::Based => Symbol::Based,
        TokenKind::Fill => Symbol::Fill,
        TokenKind::Text => Symbol::Text,
        TokenKind::System => Symbol::System,
        TokenKind::Word | TokenKind::Directive | TokenKind::Mark => Symbol::Other,
    }
}

/// The system function of a name.
pub fn function_of(names: &Names, token: Token) -> Function
    ensures { result ≡ function_by_text (get_or names.now token.name.0 []) }
{
    let text = names.text_of(token.name);
    if text == CLOG2 {
        return Function::CeilingLog;
    }
    if text == SIGNED {
        return Function::Signed;
    }
    Function::Unsigned
}
