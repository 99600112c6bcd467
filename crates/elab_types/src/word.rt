//! Types that a word names.

ghost use Rattle.std.specs.Prelude.{◌≡◌, IfSome};
ghost use Rattle.sv_expr.specs.Bound.{IsWidth};
ghost use Rattle.elab_types.specs.Word as words;

use sv_expr::symbol;
use sv_tree::{Import, Names, Symbol, Token, WordType};
use vs_base::ValueType;

/// The type of a word with a sign or none (IEEE 1800-2017 6.11): `byte`, `shortint`, `int`, `integer` and `longint`
/// have 8, 16, 32, 32 and 64 bits and a sign unless `unsigned` stands there. Any other word is one bit without a
/// sign.
pub fn word_kind(names: &Names, word: WordType) -> ValueType
    ensures kind { result ≡ words.word_kind names.now word }
    ensures width { IsWidth result.width }
{
    let Some(width) = fixed_width(symbol(names, word.word)) else {
        return ValueType {
            width: 1,
            signed: false,
        };
    };
    let signed = match word.sign {
        None => true,
        Some(sign) => is_signed(names, sign),
    };
    ValueType { width, signed }
}

/// The bits of a word that has more than one.
fn fixed_width(word: Symbol) -> Option<u32>
    ensures value { result ≡ words.fixed_width word }
    ensures width { IfSome result (λ width. IsWidth width) }
{
    match word {
        Symbol::Byte => Some(8),
        Symbol::Shortint => Some(16),
        Symbol::Int | Symbol::Integer => Some(32),
        Symbol::Longint => Some(64),
        _ => None,
    }
}

/// Whether a sign is `signed`.
pub fn is_signed(names: &Names, sign: Token) -> bool
    ensures { result ≡ words.is_signed names.now sign }
{
    matches!(symbol(names, sign), Symbol::Signed)
}

/// Whether a sign that may be left out is `signed`.
pub fn has_sign(names: &Names, sign: Option<Token>) -> bool
    ensures { result ≡ words.has_sign names.now sign }
{
    match sign {
        None => false,
        Some(sign) => is_signed(names, sign),
    }
}

/// The type of what an import gives (IEEE 1800-2017 35.5.5). `None`: it gives nothing, since it is `void`.
pub fn result_kind(names: &Names, import: &Import) -> Option<ValueType>
    ensures kind { result ≡ words.result_kind names.now import.now.result }
    ensures width { IfSome result (λ kind. IsWidth kind.width) }
{
    let word = import.result;
    if matches!(symbol(names, word.word), Symbol::Void) {
        return None;
    }
    Some(word_kind(names, word))
}
