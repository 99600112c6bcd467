//! Classes of symbols.

ghost use Rattle.std.specs.Prelude.{◌≡◌};
ghost use Rattle.sv_tree.specs.Symbol as spec;

use sv_tree::Symbol;

/// Whether it is the mark of an assignment, blocking or not.
pub fn is_assign(symbol: Symbol) -> bool
    ensures { result ≡ spec.is_assign symbol }
{
    matches!(symbol, Symbol::Assign | Symbol::LessEqual)
}

/// Whether it is the type of a loop's variable.
pub fn is_loop_type(symbol: Symbol) -> bool
    ensures { result ≡ spec.is_loop_type symbol }
{
    matches!(symbol, Symbol::Int | Symbol::Integer)
}

/// Whether it is the mark of an assignment of a loop's step.
pub fn is_loop_assign(symbol: Symbol) -> bool
    ensures { result ≡ spec.is_loop_assign symbol }
{
    matches!(
        symbol,
        Symbol::Assign | Symbol::PlusAssign | Symbol::MinusAssign
    )
}

/// Whether it is the mark of a step by one.
pub fn is_count(symbol: Symbol) -> bool
    ensures { result ≡ spec.is_count symbol }
{
    matches!(symbol, Symbol::PlusPlus | Symbol::MinusMinus)
}

/// Whether a statement may begin with it.
pub fn begins_stmt(symbol: Symbol) -> bool {
    matches!(
        symbol,
        Symbol::Semicolon
            | Symbol::Begin
            | Symbol::If
            | Symbol::Case
            | Symbol::For
            | Symbol::Name
            | Symbol::BraceOpen
    )
}
