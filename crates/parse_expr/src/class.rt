//! Classes of symbols.

ghost use Rattle.std.specs.Prelude.{◌≡◌};
ghost use Rattle.sv_tree.specs.Symbol as spec;
ghost use Rattle.parse_expr.specs.First as first;

use sv_tree::Symbol;

/// The level of a binary operator, from 1, which binds tightest, to 10, or 0 (IEEE 1800-2017
/// table 11-2).
pub fn level_of(symbol: Symbol) -> u32
    ensures { result ≡ spec.level_of symbol }
{
    match symbol {
        Symbol::Star | Symbol::Slash | Symbol::Percent => 1,
        Symbol::Plus | Symbol::Minus => 2,
        Symbol::ShiftLeft | Symbol::ShiftRight | Symbol::ArithLeft | Symbol::ArithRight => 3,
        Symbol::Less | Symbol::LessEqual | Symbol::Greater | Symbol::GreaterEqual => 4,
        Symbol::EqualEqual | Symbol::BangEqual | Symbol::CaseEqual | Symbol::CaseUnequal => 5,
        Symbol::Amp => 6,
        Symbol::Caret | Symbol::TildeCaret | Symbol::CaretTilde => 7,
        Symbol::Pipe => 8,
        Symbol::AmpAmp => 9,
        Symbol::PipePipe => 10,
        _ => 0,
    }
}

/// Whether it is an operator before its operand.
pub fn is_prefix(symbol: Symbol) -> bool
    ensures { result ≡ spec.is_prefix symbol }
{
    matches!(
        symbol,
        Symbol::Plus
            | Symbol::Minus
            | Symbol::Bang
            | Symbol::Tilde
            | Symbol::Amp
            | Symbol::TildeAmp
            | Symbol::Pipe
            | Symbol::TildePipe
            | Symbol::Caret
            | Symbol::TildeCaret
            | Symbol::CaretTilde
    )
}

/// Whether an expression may begin with it.
pub fn begins_expr(symbol: Symbol) -> bool
    ensures { result ≡ first.begins_expr symbol }
{
    is_prefix(symbol)
        || matches!(
            symbol,
            Symbol::Decimal
                | Symbol::Based
                | Symbol::Fill
                | Symbol::Name
                | Symbol::ParenOpen
                | Symbol::BraceOpen
                | Symbol::System
        )
}

/// Whether a type may begin with it.
pub fn begins_type(symbol: Symbol) -> bool
    ensures { result ≡ first.begins_type symbol }
{
    is_vector(symbol)
        || is_fixed(symbol)
        || is_sign(symbol)
        || matches!(symbol, Symbol::BracketOpen)
}

/// Whether it is the mark of a part select.
pub fn is_part(symbol: Symbol) -> bool
    ensures { result ≡ spec.is_part symbol }
{
    matches!(
        symbol,
        Symbol::Colon | Symbol::PlusColon | Symbol::MinusColon
    )
}

/// Whether it is the word of a type whose width its range gives.
pub fn is_vector(symbol: Symbol) -> bool
    ensures { result ≡ spec.is_vector symbol }
{
    matches!(
        symbol,
        Symbol::Logic | Symbol::Bit | Symbol::Reg | Symbol::Wire
    )
}

/// Whether it is the word of a type that has its width.
pub fn is_fixed(symbol: Symbol) -> bool
    ensures { result ≡ spec.is_fixed symbol }
{
    matches!(
        symbol,
        Symbol::Byte | Symbol::Shortint | Symbol::Int | Symbol::Longint | Symbol::Integer
    )
}

/// Whether it is `signed` or `unsigned`.
pub fn is_sign(symbol: Symbol) -> bool
    ensures { result ≡ spec.is_sign symbol }
{
    matches!(symbol, Symbol::Signed | Symbol::Unsigned)
}

/// Whether it is the word of the type of an import's result.
pub fn is_result(symbol: Symbol) -> bool
    ensures { result ≡ spec.is_result symbol }
{
    matches!(
        symbol,
        Symbol::Void
            | Symbol::Byte
            | Symbol::Shortint
            | Symbol::Int
            | Symbol::Longint
            | Symbol::Bit
            | Symbol::Logic
    )
}

/// Whether it is the word of the type of an import's argument.
pub fn is_argument(symbol: Symbol) -> bool
    ensures { result ≡ spec.is_argument symbol }
{
    matches!(
        symbol,
        Symbol::Byte
            | Symbol::Shortint
            | Symbol::Int
            | Symbol::Longint
            | Symbol::Integer
            | Symbol::Bit
            | Symbol::Logic
    )
}

/// Whether a type has its width, so that in an import it may have a sign.
pub fn is_signable(symbol: Symbol) -> bool
    ensures { result ≡ spec.is_signable symbol }
{
    is_fixed(symbol)
}
